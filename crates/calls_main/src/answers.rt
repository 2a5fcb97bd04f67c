// Answers of relief, a run and a drive, in words.
use base::Refusal;
use call_prints::shows::{print, print_refusal};
use drives::{Driven, End};
use relief::Enlargement;
use runs::Ran;

pub fn print_relieved(rt: &impl Print, answer: Result<Enlargement, Refusal>) {
    match answer {
        Ok(enlarged) => print(
            rt,
            format_args!(" enlarged {} ring {}", enlarged.channel, enlarged.length),
        ),
        Err(r) => print_refusal(rt, r),
    }
}

pub fn print_ran(rt: &impl Print, answer: Result<Ran, Refusal>) {
    match answer {
        Ok(ran) => print(
            rt,
            format_args!(" moved {} enlarged {}", ran.moved, ran.enlarged),
        ),
        Err(r) => print_refusal(rt, r),
    }
}

fn word_of(end: End) -> &'static str {
    match end {
        End::Settled => " settled",
        End::Ceiling => " ceiling",
        End::Spent => " spent",
    }
}

pub fn print_driven(rt: &impl Print, answer: Result<Driven, Refusal>) {
    match answer {
        Ok(driven) => {
            let end = word_of(driven.end);
            print(
                rt,
                format_args!("{end} picks {} enlarged {}", driven.picks, driven.enlarged),
            );
        }
        Err(r) => print_refusal(rt, r),
    }
}
