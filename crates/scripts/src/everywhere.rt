//! Tests that are played once more for each place where their device may stop or fail.

use crate::player::{Manner, Player};
use crate::script::Test;
use crate::test::Failure;
use page::MemDisk;
use script_text::{Fault, Line, Word, head_of};
use std::alloc::{AllocError, Global};

/// The images that a power cut may leave, by masks of eleven bits.
const MASKS: u16 = 2_048;

/// What goes wrong while a test is played.
#[derive(Clone, Copy)]
enum Trouble {
    /// Nothing but what the machine itself refuses.
    None,
    /// The device stops for good after so many writes and syncs.
    Stop(u64),
    /// Its call with this number fails once; where it is a write, it lands or not.
    Fail(u64, bool),
    /// The test ends behind the look with this number.
    End(usize),
}

/// A look at what stands in the server, with its answer.
#[derive(Clone, Copy)]
struct Look<'a> {
    command: &'a Line,
    answer: &'a Line,
}

/// The looks of a test.
fn looks_of<'a>(alloc: Global, lines: &'a [Line]) -> Result<Vec<Look<'a>>, AllocError> {
    let mut looks = Vec::new(alloc);
    for (command, answer) in lines.iter().zip(lines.iter().skip(1)) {
        if head_of(command.text.as_str()).word == Some(Word::Look) {
            looks.push(Look { command, answer })?;
        }
    }
    Ok(looks)
}

/// What may stand in a server: what a look says, or, where a turn was cut, what the one behind it says.
#[derive(Clone, Copy)]
struct Expected {
    look: usize,
    or_next: bool,
}

/// A test with its looks.
#[derive(Clone, Copy)]
struct Trial<'a> {
    alloc: Global,
    test: Test<'a>,
    looks: &'a [Look<'a>],
}

/// Whether a mask of so many writes that may land has no bit but theirs.
fn is_distinct(mask: u16, pending: u32) -> bool {
    let earlier = if pending > 10 { 1_024 } else { 0 };
    let last = match pending {
        0..10 => !(u16::MAX << pending),
        _ => 1_023,
    };
    mask & !(earlier | last) == 0
}

impl<'a> Trial<'a> {
    /// A failure of the whole test.
    fn failure(&self, fault: Fault) -> Failure {
        Failure::at(self.test.title, fault)
    }

    /// A player of the test, whose server isn't open.
    fn player(&self, last_look: usize) -> Result<Player, Fault> {
        Player::new(
            self.alloc,
            Manner {
                max_pages: self.test.head.max_pages,
                is_patient: self.test.head.grows,
                is_recorded: self.test.head.is_one_run,
                last_look,
            },
        )
    }

    /// Plays the test from its beginning.
    fn play(&self, player: &mut Player) -> Result<(), Failure> {
        match player.open(MemDisk::new(self.alloc)) {
            Ok(()) => player.play(self.test.lines),
            Err(fault) => Err(self.failure(fault)),
        }
    }

    /// Whether a look finds what it says.
    fn finds(&self, player: &mut Player, number: usize) -> Result<bool, Fault> {
        let Some(look) = self.looks.get(number) else {
            return Ok(false);
        };
        player.play_line(look.command.text.as_str())?;
        match player.play_line(look.answer.text.as_str()) {
            Ok(()) => Ok(true),
            Err(Fault::Other(_)) => Ok(false),
            Err(fault) => Err(fault),
        }
    }

    /// Which look says what stands in a file, and the file.
    fn found(&self, memory: MemDisk, expected: Expected) -> Result<(usize, MemDisk), Fault> {
        let mut player = self.player(0)?;
        player.open(memory)?;
        let next = expected.look.saturating_add(1);
        let number = if self.finds(&mut player, expected.look)? {
            expected.look
        } else if expected.or_next && self.finds(&mut player, next)? {
            next
        } else {
            return Err(Fault::Form("a file with what no turn left"));
        };
        Ok((number, player.close()?))
    }

    /// A file holds what is expected, and the same when it is opened once more.
    fn holds(&self, memory: MemDisk, expected: Expected) -> Result<(), Fault> {
        let (first, memory) = self.found(memory, expected)?;
        let (second, _) = self.found(memory, expected)?;
        if first == second {
            Ok(())
        } else {
            Err(Fault::Form("a file that holds something else when it is opened again"))
        }
    }

    /// Each file that a power cut may leave holds what is expected.
    fn all_hold(&self, memory: &MemDisk, pending: u32, expected: Expected) -> Result<(), Fault> {
        for mask in 0..MASKS {
            if is_distinct(mask, pending) {
                self.holds(memory.image(mask)?, expected)?;
            }
        }
        Ok(())
    }

    /// What is expected after a test was played so far.
    fn expected(&self, player: &Player, played: Result<(), Failure>) -> Result<Expected, Failure> {
        let look = player.looks.saturating_sub(1);
        let or_next = match played {
            Ok(()) => false,
            Err(failure) => match failure.fault {
                Fault::Stopped => player.looks > 0,
                Fault::Refused => false,
                _ => return Err(failure),
            },
        };
        Ok(Expected { look, or_next })
    }

    /// Plays the test in trouble, and looks at what is left.
    fn play_in(&self, trouble: Trouble) -> Result<(), Failure> {
        let last_look = match trouble {
            Trouble::End(look) => look,
            _ => 0,
        };
        let mut player = self.player(last_look).map_err(|fault| self.failure(fault))?;
        match trouble {
            Trouble::Stop(writes) => player.orders.stop_after(writes),
            Trouble::Fail(number, lands) => player.orders.fail_at(number, lands),
            Trouble::None | Trouble::End(_) => {}
        }
        let played = self.play(&mut player);
        let expected = self.expected(&player, played)?;
        self.judge(&mut player, expected)
            .map_err(|fault| self.failure(fault))
    }

    /// What is left is what is expected, after a power cut and without one.
    fn judge(&self, player: &mut Player, expected: Expected) -> Result<(), Fault> {
        let pending = player.orders.pending();
        let memory = player.close()?;
        self.all_hold(&memory, pending, expected)?;
        self.holds(memory, expected)
    }

    /// Plays the test to its end, and gives how many calls of the device it makes, and how many of these write or sync.
    fn play_whole(&self) -> Result<(u64, u64), Failure> {
        let mut player = self.player(0).map_err(|fault| self.failure(fault))?;
        self.play(&mut player)?;
        if self.test.head.is_one_run {
            player.is_same_anew().map_err(|fault| self.failure(fault))?;
        }
        Ok((player.orders.calls(), player.orders.writes()))
    }

    /// Plays the test with a device that stops after each write and sync.
    fn stop_everywhere(&self, writes: u64) -> Result<(), Failure> {
        for number in 0..writes {
            self.play_in(Trouble::Stop(number))?;
        }
        Ok(())
    }

    /// Plays the test with a device of which each call fails, and where it is a write once more with one that lands.
    fn fail_everywhere(&self, calls: u64) -> Result<(), Failure> {
        for number in 0..calls {
            self.play_in(Trouble::Fail(number.saturating_add(1), false))?;
            self.play_in(Trouble::Fail(number.saturating_add(1), true))?;
        }
        Ok(())
    }

    /// Cuts the power behind each look.
    fn cut_everywhere(&self) -> Result<(), Failure> {
        for look in 0..self.looks.len() {
            self.play_in(Trouble::End(look.saturating_add(1)))?;
        }
        Ok(())
    }
}

/// Plays a test, in all the ways that its head asks for.
pub fn play_test(alloc: Global, test: Test<'_>) -> Result<(), Failure> {
    let looks = match looks_of(alloc, test.lines) {
        Ok(looks) => looks,
        Err(error) => return Err(Failure::at(test.title, Fault::from(error))),
    };
    let trial = Trial {
        alloc,
        test,
        looks: &looks,
    };
    if test.head.grows {
        return trial.play_in(Trouble::None);
    }
    let (calls, writes) = trial.play_whole()?;
    if test.head.stops {
        trial.stop_everywhere(writes)?;
    }
    if test.head.fails {
        trial.fail_everywhere(calls)?;
    }
    if test.head.cuts {
        trial.cut_everywhere()?;
    }
    Ok(())
}
