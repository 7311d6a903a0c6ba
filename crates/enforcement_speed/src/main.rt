// Lists of rules and steps made by a small generator and run in batches from a fresh state, for bench/run. With no input it
// prints the checksum of all answers to a short list of each kind, and what a list gives that is lent one entry too few. With three
// bytes of input, list, batches and `r` or `g`, it runs one list, or only makes it, so that the time of making can be taken off.
// bench/gates.rs makes the same lists.
#![tactic(auto)]

ghost use Rattle.std.specs.Prelude.{◌≤◌};

mod checksum;
mod drawn_rules;
mod drawn_steps;
mod generator;
mod lists;

use checksum::Checksum;
use enforcement::State;
use generator::Generator;
use lists::List;
use rules::RuleList;
use std::io::{self, Cursor, Read};

// What is done with the steps of a list.
#[derive(Clone, Copy)]
enum Work {
    Run,
    // Every step is looked at, so that none is left unmade.
    Make,
}

// The state, the generator and the checksum after some batches.
#[derive(Drop)]
struct Going {
    state: State,
    generator: Generator,
    checksum: Checksum,
}

fn main(rt: HostRuntime) -> io::Result<()> {
    let mut input = [0u8; 3];
    io::copy(&mut rt.reader().take(3), &mut Cursor::new(&mut input[..]))?;
    let [number, batches, work] = input;
    if number < b'0' {
        for number in 0..6 {
            line(&rt, sum_of(List::numbered(number), 16, Work::Run))?;
        }
        return show_short_room(&rt);
    }
    let work = if work == b'r' { Work::Run } else { Work::Make };
    let list = List::numbered(number % 16);
    line(&rt, sum_of(list, u32::from(batches) % 32 * 128, work))
}

// One entry too few for the steps: 18, and each entry and the state stay. It prints the number, the checksum of the entries handed in and
// of those handed back, and the same of the state.
fn show_short_room(rt: &impl Print) -> io::Result<()> {
    let list = List::numbered(5);
    let mut going = Going::start(list);
    going.go_on(list, 16, Work::Run);
    let steps = drawn_steps::batch(list, 16, &mut going.generator);
    let mut few = [7u64; 255];
    let entries = checksum::of_all(&few);
    let refused = enforcement::run(drawn_rules::rules(list), going.state, &steps, &mut few);
    line(rt, refused.number)?;
    line(rt, entries)?;
    line(rt, checksum::of_all(&few))?;
    line(rt, checksum::of_state(&going.state))?;
    line(rt, checksum::of_state(&refused.state))
}

fn line(rt: &impl Print, n: u64) -> io::Result<()> {
    println!(rt; "{n}")
}

// The checksum of a list's answers.
fn sum_of(list: List, batches: u32, work: Work) -> u64
    requires { batches ≤ 4096 }
{
    let mut going = Going::start(list);
    going.go_on(list, batches, work);
    going.checksum.sum
}

impl Going {
    // From a fresh state.
    fn start(list: List) -> Going {
        Going {
            state: State::fresh(),
            generator: Generator::new(99 + u64::from(list.number)),
            checksum: Checksum::new(),
        }
    }

    // A list's first batches.
    fn go_on(&mut self, list: List, batches: u32, work: Work)
        requires { batches ≤ 4096 }
    {
        let rules = drawn_rules::rules(list);
        for number in 0..batches {
            self.take_batch(list, rules, number, work);
        }
    }

    fn take_batch(&mut self, list: List, rules: RuleList, number: u32, work: Work)
        requires { number ≤ 4096 }
    {
        let steps = drawn_steps::batch(list, number, &mut self.generator);
        let mut answers = [0u64; 256];
        match work {
            Work::Run => {
                self.state = enforcement::run(rules, self.state, &steps, &mut answers).state;
                self.checksum.add_all(&answers);
            }
            Work::Make => self.checksum.add_steps(&steps),
        }
    }
}
