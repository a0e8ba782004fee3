//! What can't be seen of a run, chosen so that it is one of the model's: the flag that `t` tests, and what each step does to a file.

use crate::seen::{Seen, Trace};
use sedck_model::{Budget, Event, Machine, Move, State, Undecided, follows, step};
use sedck_script::{Script, Verb};
use std::alloc::{AllocError, Global};

/// How much matching one step may take.
const STEP_BUDGET: u64 = 200_000;

/// What is known of a run.
#[derive(Clone, Copy)]
pub enum Verdict {
    /// It is one of the model's.
    Follows,
    /// No choice makes the step with this number, from 0, one of the model's.
    Refused(usize),
    /// So many steps weren't decided, and none was refused.
    Undecided(usize),
}

/// Whether what was seen is a run of the model.
pub fn decide_run(alloc: Global, script: &Script, trace: &Trace) -> Result<Verdict, AllocError> {
    let mut lines: Vec<&[u8]> = Vec::new(alloc);
    for line in &trace.lines {
        lines.push(line.as_slice())?;
    }
    let run = Run {
        script: &*script,
        lines: lines.as_slice(),
        trace: &*trace,
    };
    run.decide(alloc)
}

/// A way to come to a state: the flag before its step, and whether that reads or writes the file of its command.
#[derive(Clone, Copy)]
struct Way {
    flag: bool,
    uses_file: bool,
}

static WAYS: &'static [Way] = &[
    Way {
        flag: false,
        uses_file: false,
    },
    Way {
        flag: false,
        uses_file: true,
    },
    Way {
        flag: true,
        uses_file: false,
    },
    Way {
        flag: true,
        uses_file: true,
    },
];

/// The last way that isn't refused, if there is one, and whether some way isn't decided.
#[derive(Clone, Copy)]
struct Found {
    way: Option<Way>,
    is_open: bool,
}

const NOT_FOUND: Found = Found {
    way: None,
    is_open: false,
};

/// The ways to come to one state, without the flag and with it.
#[derive(Clone, Copy)]
struct Ways {
    without: Found,
    with: Found,
}

impl Ways {
    fn to(&self, flag: bool) -> Found {
        if flag { self.with } else { self.without }
    }
}

/// What was seen of a run of a script on these lines.
#[derive(Clone, Copy)]
struct Run<'a> {
    script: &'a Script<'a>,
    lines: &'a [&'a [u8]],
    trace: &'a Trace,
}

impl<'a> Run<'a> {
    /// Goes from state to state, and asks at the end whether the whole is a run.
    fn decide(&self, alloc: Global) -> Result<Verdict, AllocError> {
        let mut all: Vec<Ways> = Vec::new(alloc);
        let mut undecided = 0usize;
        let mut from = before_the_first_step();
        let steps = self.trace.states.len();
        let steps = steps.saturating_add(self.trace.is_done as usize);
        for number in 0..steps {
            from = self.ways_from(alloc, number, &from)?;
            if from.without.way.is_none() && from.with.way.is_none() {
                return Ok(Verdict::Refused(number));
            }
            if from.without.is_open || from.with.is_open {
                undecided = undecided.saturating_add(1);
            }
            all.push(from)?;
        }
        if undecided > 0 {
            return Ok(Verdict::Undecided(undecided));
        }
        self.decide_whole(alloc, &all)
    }

    /// The ways from the state with this number to the next one.
    fn ways_from(&self, alloc: Global, number: usize, from: &Ways) -> Result<Ways, AllocError> {
        let without = self.way_to(alloc, number, from, false)?;
        let with = self.way_to(alloc, number, from, true)?;
        Ok(Ways { without, with })
    }

    /// The same, where the next one has this flag.
    fn way_to(
        &self,
        alloc: Global,
        number: usize,
        from: &Ways,
        flag: bool,
    ) -> Result<Found, AllocError> {
        let mut found = NOT_FOUND;
        for way in WAYS {
            if from.to(way.flag).way.is_none() {
                continue;
            }
            match self.decide_step(alloc, number, *way, flag)? {
                Some(false) => {}
                Some(true) => found.way = Some(*way),
                None => {
                    found = Found {
                        way: Some(*way),
                        is_open: true,
                    }
                }
            }
        }
        Ok(found)
    }

    /// Whether it is a step of the model; none where that isn't decided.
    fn decide_step(
        &self,
        alloc: Global,
        number: usize,
        way: Way,
        flag: bool,
    ) -> Result<Option<bool>, AllocError> {
        let before = self.state_at(number, way.flag);
        let next = self.move_at(number, way, flag);
        let mut budget = Budget {
            alloc,
            left: STEP_BUDGET,
        };
        match step(self.script, &before, &next, &mut budget) {
            Ok(yes) => Ok(Some(yes)),
            Err(Undecided::OutOfBudget) => Ok(None),
            Err(Undecided::OutOfMemory) => Err(AllocError),
        }
    }

    /// Chooses the flags from the end back to the beginning, and asks whether the whole is a run.
    fn decide_whole(&self, alloc: Global, all: &[Ways]) -> Result<Verdict, AllocError> {
        let mut moves: Vec<Move> = Vec::new(alloc);
        let mut flag = match all.last() {
            Some(ways) => ways.without.way.is_none(),
            None => false,
        };
        for (number, ways) in all.iter().enumerate().rev() {
            let Some(way) = ways.to(flag).way else {
                return Ok(Verdict::Refused(number));
            };
            moves.push(self.move_at(number, way, flag))?;
            flag = way.flag;
        }
        moves.reverse();
        self.decide_moves(alloc, &moves)
    }

    fn decide_moves(&self, alloc: Global, moves: &[Move]) -> Result<Verdict, AllocError> {
        let mut budget = Budget {
            alloc,
            left: STEP_BUDGET.saturating_mul(moves.len() as u64),
        };
        match follows(self.script, self.lines, moves, &mut budget) {
            Ok(None) => Ok(Verdict::Follows),
            Ok(Some(number)) => Ok(Verdict::Refused(number)),
            Err(Undecided::OutOfBudget) => Ok(Verdict::Undecided(moves.len())),
            Err(Undecided::OutOfMemory) => Err(AllocError),
        }
    }

    /// The step from the state with this number to the next one, which has this flag.
    fn move_at(&self, number: usize, way: Way, flag: bool) -> Move<'a> {
        Move {
            event: self.event_at(number, way.uses_file),
            after: self.state_at(number.saturating_add(1), flag),
        }
    }

    /// The state with this number: 0 is before the first line, then come those that were seen, and then the end.
    fn state_at(&self, number: usize, flag: bool) -> State<'a> {
        if number == 0 {
            return State::Start(self.lines);
        }
        match self.trace.states.get(number - 1) {
            Some(seen) => State::At(self.machine(seen, flag)),
            None => State::Done,
        }
    }

    fn machine(&self, seen: &'a Seen, flag: bool) -> Machine<'a> {
        Machine {
            at: seen.place,
            flag,
            unread: self.lines.get(seen.read..).unwrap_or(&[]),
            pattern: &seen.pattern,
            hold: &seen.hold,
        }
    }

    /// What the step from the state with this number does to the file of its command, or that it does nothing to one.
    fn event_at(&self, number: usize, uses_file: bool) -> Event<'a> {
        if number == 0 || !uses_file {
            return Event::Silent;
        }
        let Some(seen) = self.trace.states.get(number - 1) else {
            return Event::Silent;
        };
        match self.script.commands().get(seen.place) {
            Some(command) => file_event(&command.verb),
            None => Event::Silent,
        }
    }
}

/// Before its first step a run has no flag.
fn before_the_first_step() -> Ways {
    Ways {
        without: Found {
            way: Some(Way {
                flag: false,
                uses_file: false,
            }),
            is_open: false,
        },
        with: NOT_FOUND,
    }
}

/// The file that the verb may read or write.
fn file_event<'a>(verb: &'a Verb<'a>) -> Event<'a> {
    match verb {
        Verb::Read(name) => Event::Reads(name),
        Verb::Write(name) => Event::Writes(name),
        Verb::Substitute(substitution) => match substitution.file {
            Some(name) => Event::Writes(name),
            None => Event::Silent,
        },
        _ => Event::Silent,
    }
}
