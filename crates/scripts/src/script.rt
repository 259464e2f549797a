//! A script: tests with titles.

use crate::player::MOST_PAGES;
use crate::test::Failure;
use script_text::{Fault, Line, number_in};
use std::alloc::{AllocError, Global};

/// A test: its title, what its head says, and its lines.
#[derive(Clone, Copy)]
pub struct Test<'a> {
    pub title: &'a Line,
    pub head: Head,
    pub lines: &'a [Line],
}

/// What the lines right below a title say.
#[derive(Clone, Copy)]
pub struct Head {
    /// A file has at most so many pages.
    pub max_pages: u32,
    /// It is played with a device that stops after each of its writes and syncs.
    pub stops: bool,
    /// It is played with a device of which each call fails.
    pub fails: bool,
    /// The power is cut after each look.
    pub cuts: bool,
    /// It is played while growths of memory are refused.
    pub grows: bool,
    /// Its steps are done once more by `run_anew`.
    pub is_one_run: bool,
}

impl Head {
    /// A test that is played once.
    fn new() -> Head {
        Head {
            max_pages: MOST_PAGES,
            stops: false,
            fails: false,
            cuts: false,
            grows: false,
            is_one_run: false,
        }
    }

    /// Takes a line of the head. It gives whether this is one.
    fn take(&mut self, line: &str) -> Result<bool, Fault> {
        match line {
            "everywhere stop" => self.stops = true,
            "everywhere fail" => self.fails = true,
            "everywhere cut" => self.cuts = true,
            "each growth" => self.grows = true,
            "one run" => self.is_one_run = true,
            _ => {
                let Some(pages) = line.strip_prefix("pages ") else {
                    return Ok(false);
                };
                self.max_pages = number_in(pages)?;
            }
        }
        Ok(true)
    }
}

/// The test of a title and the lines below it.
fn test_of<'a>(title: &'a Line, lines: &'a [Line]) -> Result<Test<'a>, Failure> {
    let mut head = Head::new();
    let mut rest = lines;
    for line in lines {
        match head.take(line.text.as_str()) {
            Ok(true) => rest = rest.split_first().map_or(rest, |(_, behind)| behind),
            Ok(false) => break,
            Err(fault) => return Err(Failure::at(line, fault)),
        }
    }
    Ok(Test {
        title,
        head,
        lines: rest,
    })
}

/// The tests of a script, in order. What stands above the first title is none.
pub fn tests_of<'a>(alloc: Global, lines: &'a [Line]) -> Result<Vec<Test<'a>>, Failure> {
    let mut tests = Vec::new(alloc);
    for part in lines.chunk_by(|_, line| !line.text.starts_with("== ")) {
        let Some((title, lines)) = part.split_first() else {
            continue;
        };
        let test = test_of(title, lines)?;
        if let Err(error) = tests.push(test) {
            return Err(Failure::at(title, Fault::from(AllocError::from(error))));
        }
    }
    Ok(tests)
}
