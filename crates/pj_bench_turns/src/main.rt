//! Measures turns: each of so many threads looks at a hub so often. The words are the number of threads, 1 to 64, and of looks of
//! each. Writes what it did to standard output, and how many nanoseconds a turn took to standard error.
#![tactic(auto)]

ghost use Rattle.std.specs.Prelude.{◌≤◌, IfSome};

mod opening;
mod turning;

use opening::opened;
use pj_value::List;
use std::env;
use std::process::ExitCode;
use std::time::Instant;
use turning::look_on_all;

const USAGE: u8 = 64;

const FAILED: u8 = 70;

// The number of threads and of looks of each, where the words are two such numbers.
fn numbers(words: &[String]) -> Option<(u32, u32)>
    ensures { IfSome result (λ n. (1 ≤ n.0) × (n.0 ≤ 64)) }
{
    if words.len() != 2 {
        return None;
    }
    let threads = words[0].parse::<u32>().ok()?;
    let looks = words[1].parse::<u32>().ok()?;
    if threads >= 1 && threads <= 64 {
        Some((threads, looks))
    } else {
        None
    }
}

fn main(rt: HostRuntime) -> ExitCode {
    let Ok(words) = env::args(&rt) else {
        return ExitCode::from(FAILED);
    };
    let Ok(words) = words.skip(1).collect::<Vec<String>>(rt.alloc()) else {
        return ExitCode::from(FAILED);
    };
    let Some((threads, looks)) = numbers(words.as_slice()) else {
        return ExitCode::from(USAGE);
    };
    let Some((hub, seats)) = opened(rt.alloc(), threads) else {
        return ExitCode::from(FAILED);
    };
    let mut seats = seats.into_vec();
    let Ok(begin) = Instant::now(&rt) else {
        return ExitCode::from(FAILED);
    };
    look_on_all(&rt, &hub, seats.as_mut_slice(), looks);
    let Ok(spent) = begin.elapsed(&rt) else {
        return ExitCode::from(FAILED);
    };
    let _core = hub.close(List::of(seats));
    let turns = u64::from(threads) * u64::from(looks);
    let told = spent.as_nanos() / u128::from(turns.max(1));
    let written = println!(&rt; "{threads} threads, {looks} looks of each");
    let measured = eprintln!(&rt; "{told}");
    if written.is_ok() && measured.is_ok() {
        ExitCode::from(0)
    } else {
        ExitCode::from(FAILED)
    }
}
