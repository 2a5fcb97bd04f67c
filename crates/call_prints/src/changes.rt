// What a call changed: every part of the lane and its cells that is not as it was, with what it is now.
use crate::shows::{print, print_channel, print_signed, print_standing};
use lane::{Lane, Standing};
use process::Channel;

// Registers, by 8 x process + register, or cells.
fn print_values(rt: &impl Print, name: &str, before: &[i32], after: &[i32]) {
    // By places: a pair of iterators costs five instructions a cell more, and a lane has 8,192.
    for k in 0..before.len().min(after.len()) {
        if before[k] != after[k] {
            print(rt, format_args!("{name}{k}"));
            print_signed(rt, " is ", after[k]);
        }
    }
}

fn print_processes(rt: &impl Print, before: &[Standing], after: &[Standing]) {
    for (k, (a, b)) in before.iter().zip(after).enumerate() {
        if a != b {
            print(rt, format_args!("; process {k}"));
            print_standing(rt, *b);
        }
    }
}

fn print_channels(rt: &impl Print, before: &[Channel], after: &[Channel]) {
    for (k, (a, b)) in before.iter().zip(after).enumerate() {
        if a != b {
            print(rt, format_args!("; channel {k}"));
            print_channel(rt, *b);
        }
    }
}

// From a lane with the cells that it had to a lane with its cells.
pub fn print_changes(rt: &impl Print, before: &Lane, had: &[i32], after: &Lane, cells: &[i32]) {
    print_values(rt, "; register ", &before.registers, &after.registers);
    print_processes(rt, &before.processes, &after.processes);
    print_channels(rt, &before.channels, &after.channels);
    print_values(rt, "; cell ", had, cells);
    if before.accepted != after.accepted {
        print(rt, format_args!("; accepted {}", after.accepted));
    }
}
