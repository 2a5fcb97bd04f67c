// What is changed in the lane file that the vectors start from (data/lane.bin).
//
// It has two processes of 100 and 60 instructions, four channels (from outside to 0; from 0 to 1; from 1 to outside; from 1 to 1) and two code
// blocks. The instructions of process 0 begin with 11, 1 to 10, 12 and 13; instruction 160 and those after it are unused.

// Each byte of `changed` becomes the value beside it (byte 0 keeps its 76 where nothing more is changed), and the checks of the blocks in the mask `sealed`
// (1, 2, 4) are made right.
#[derive(Clone, Copy)]
pub struct Case {
    pub changed: [(usize, u8); 2],
    pub sealed: u8,
}

pub const CASES: [Case; 99] = [
    Case {
        changed: [(0, 76), (0, 76)],
        sealed: 7,
    },
    Case {
        changed: [(3, 3), (0, 76)],
        sealed: 6,
    },
    Case {
        changed: [(512, 12), (0, 76)],
        sealed: 5,
    },
    Case {
        changed: [(1024, 12), (0, 76)],
        sealed: 3,
    },
    Case {
        changed: [(512, 12), (1024, 12)],
        sealed: 1,
    },
    Case {
        changed: [(3, 17), (1024, 12)],
        sealed: 3,
    },
    Case {
        changed: [(0, 77), (1, 78)],
        sealed: 7,
    },
    Case {
        changed: [(1, 76), (0, 76)],
        sealed: 7,
    },
    Case {
        changed: [(2, 2), (0, 76)],
        sealed: 7,
    },
    Case {
        changed: [(3, 0), (0, 76)],
        sealed: 7,
    },
    Case {
        changed: [(3, 17), (0, 76)],
        sealed: 7,
    },
    Case {
        changed: [(4, 0), (0, 76)],
        sealed: 7,
    },
    Case {
        changed: [(4, 33), (0, 76)],
        sealed: 7,
    },
    Case {
        changed: [(5, 1), (0, 76)],
        sealed: 7,
    },
    Case {
        changed: [(5, 3), (0, 76)],
        sealed: 7,
    },
    Case {
        changed: [(4, 33), (3, 0)],
        sealed: 7,
    },
    Case {
        changed: [(9, 1), (0, 76)],
        sealed: 7,
    },
    Case {
        changed: [(11, 0), (0, 76)],
        sealed: 7,
    },
    Case {
        changed: [(10, 1), (0, 76)],
        sealed: 7,
    },
    Case {
        changed: [(13, 99), (0, 76)],
        sealed: 7,
    },
    Case {
        changed: [(13, 101), (0, 76)],
        sealed: 7,
    },
    Case {
        changed: [(15, 0), (0, 76)],
        sealed: 7,
    },
    Case {
        changed: [(15, 27), (0, 76)],
        sealed: 7,
    },
    Case {
        changed: [(15, 155), (0, 76)],
        sealed: 7,
    },
    Case {
        changed: [(15, 0), (75, 0)],
        sealed: 7,
    },
    Case {
        changed: [(72, 2), (0, 76)],
        sealed: 7,
    },
    Case {
        changed: [(77, 254), (0, 76)],
        sealed: 7,
    },
    Case {
        changed: [(73, 255), (0, 76)],
        sealed: 7,
    },
    Case {
        changed: [(79, 0), (0, 76)],
        sealed: 7,
    },
    Case {
        changed: [(83, 1), (0, 76)],
        sealed: 7,
    },
    Case {
        changed: [(79, 0), (6, 1)],
        sealed: 7,
    },
    Case {
        changed: [(6, 1), (0, 76)],
        sealed: 7,
    },
    Case {
        changed: [(7, 1), (0, 76)],
        sealed: 7,
    },
    Case {
        changed: [(16, 1), (0, 76)],
        sealed: 7,
    },
    Case {
        changed: [(71, 1), (0, 76)],
        sealed: 7,
    },
    Case {
        changed: [(88, 1), (0, 76)],
        sealed: 7,
    },
    Case {
        changed: [(199, 1), (0, 76)],
        sealed: 7,
    },
    Case {
        changed: [(200, 1), (0, 76)],
        sealed: 7,
    },
    Case {
        changed: [(509, 1), (0, 76)],
        sealed: 7,
    },
    Case {
        changed: [(1020, 1), (0, 76)],
        sealed: 7,
    },
    Case {
        changed: [(1021, 2), (0, 76)],
        sealed: 7,
    },
    Case {
        changed: [(1156, 1), (0, 76)],
        sealed: 7,
    },
    Case {
        changed: [(1531, 1), (0, 76)],
        sealed: 7,
    },
    Case {
        changed: [(1532, 1), (0, 76)],
        sealed: 7,
    },
    Case {
        changed: [(1533, 1), (0, 76)],
        sealed: 7,
    },
    Case {
        changed: [(1533, 1), (1156, 1)],
        sealed: 7,
    },
    Case {
        changed: [(1156, 1), (516, 14)],
        sealed: 7,
    },
    Case {
        changed: [(516, 14), (0, 76)],
        sealed: 7,
    },
    Case {
        changed: [(909, 1), (0, 76)],
        sealed: 7,
    },
    Case {
        changed: [(910, 1), (0, 76)],
        sealed: 7,
    },
    Case {
        changed: [(911, 1), (0, 76)],
        sealed: 7,
    },
    Case {
        changed: [(517, 8), (0, 76)],
        sealed: 7,
    },
    Case {
        changed: [(521, 8), (0, 76)],
        sealed: 7,
    },
    Case {
        changed: [(522, 8), (0, 76)],
        sealed: 7,
    },
    Case {
        changed: [(523, 1), (0, 76)],
        sealed: 7,
    },
    Case {
        changed: [(525, 8), (0, 76)],
        sealed: 7,
    },
    Case {
        changed: [(526, 8), (0, 76)],
        sealed: 7,
    },
    Case {
        changed: [(527, 8), (0, 76)],
        sealed: 7,
    },
    Case {
        changed: [(529, 8), (0, 76)],
        sealed: 7,
    },
    Case {
        changed: [(530, 8), (0, 76)],
        sealed: 7,
    },
    Case {
        changed: [(531, 8), (0, 76)],
        sealed: 7,
    },
    Case {
        changed: [(533, 8), (0, 76)],
        sealed: 7,
    },
    Case {
        changed: [(534, 8), (0, 76)],
        sealed: 7,
    },
    Case {
        changed: [(535, 8), (0, 76)],
        sealed: 7,
    },
    Case {
        changed: [(537, 8), (0, 76)],
        sealed: 7,
    },
    Case {
        changed: [(538, 8), (0, 76)],
        sealed: 7,
    },
    Case {
        changed: [(539, 8), (0, 76)],
        sealed: 7,
    },
    Case {
        changed: [(541, 8), (0, 76)],
        sealed: 7,
    },
    Case {
        changed: [(542, 8), (0, 76)],
        sealed: 7,
    },
    Case {
        changed: [(543, 8), (0, 76)],
        sealed: 7,
    },
    Case {
        changed: [(545, 1), (0, 76)],
        sealed: 7,
    },
    Case {
        changed: [(546, 1), (0, 76)],
        sealed: 7,
    },
    Case {
        changed: [(547, 100), (0, 76)],
        sealed: 7,
    },
    Case {
        changed: [(549, 8), (0, 76)],
        sealed: 7,
    },
    Case {
        changed: [(550, 1), (0, 76)],
        sealed: 7,
    },
    Case {
        changed: [(551, 100), (0, 76)],
        sealed: 7,
    },
    Case {
        changed: [(553, 8), (0, 76)],
        sealed: 7,
    },
    Case {
        changed: [(554, 1), (0, 76)],
        sealed: 7,
    },
    Case {
        changed: [(555, 100), (0, 76)],
        sealed: 7,
    },
    Case {
        changed: [(513, 8), (0, 76)],
        sealed: 7,
    },
    Case {
        changed: [(514, 1), (0, 76)],
        sealed: 7,
    },
    Case {
        changed: [(514, 4), (0, 76)],
        sealed: 7,
    },
    Case {
        changed: [(515, 100), (0, 76)],
        sealed: 7,
    },
    Case {
        changed: [(557, 8), (0, 76)],
        sealed: 7,
    },
    Case {
        changed: [(558, 0), (0, 76)],
        sealed: 7,
    },
    Case {
        changed: [(558, 4), (0, 76)],
        sealed: 7,
    },
    Case {
        changed: [(559, 1), (0, 76)],
        sealed: 7,
    },
    Case {
        changed: [(561, 1), (0, 76)],
        sealed: 7,
    },
    Case {
        changed: [(562, 0), (0, 76)],
        sealed: 7,
    },
    Case {
        changed: [(563, 1), (0, 76)],
        sealed: 7,
    },
    Case {
        changed: [(908, 1), (0, 76)],
        sealed: 7,
    },
    Case {
        changed: [(1152, 9), (0, 76)],
        sealed: 7,
    },
    Case {
        changed: [(1017, 8), (0, 76)],
        sealed: 7,
    },
    Case {
        changed: [(1025, 8), (0, 76)],
        sealed: 7,
    },
    Case {
        changed: [(1025, 8), (525, 8)],
        sealed: 7,
    },
    Case {
        changed: [(79, 255), (0, 76)],
        sealed: 7,
    },
    Case {
        changed: [(78, 1), (79, 0)],
        sealed: 7,
    },
    Case {
        changed: [(908, 8), (0, 76)],
        sealed: 7,
    },
    Case {
        changed: [(547, 99), (0, 76)],
        sealed: 7,
    },
];

pub const LENGTHS: [usize; 13] = [
    0, 1, 511, 512, 1023, 1024, 1025, 1535, 1536, 1537, 2048, 4608, 5120,
];
