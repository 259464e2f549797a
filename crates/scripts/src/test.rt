//! Tests, line by line.

use crate::player::Player;
use script_text::{
    Draft, Fault, Head, Kind, Line, Word, bytes_in, document_in, done, head_of, number_in, opened,
    row_in, subject_of, with_number,
};

/// The connection on which a test looks at what stands in the server.
const LOOKING: u8 = 63;

/// A line that isn't what happens.
#[derive(Drop)]
pub struct Failure {
    pub line: usize,
    pub fault: Fault,
}

impl Failure {
    pub fn at(line: &Line, fault: Fault) -> Failure {
        Failure {
            line: line.number,
            fault,
        }
    }
}

/// The number of the connection at the front of a line, and the line behind it.
fn connection_of(line: &str) -> (u8, &str) {
    let rest = line.trim_start_matches(|letter: char| letter.is_ascii_digit());
    let digits = line.len().saturating_sub(rest.len());
    let Some((number, _)) = line.split_at_checked(digits) else {
        return (0, line);
    };
    (number.parse::<u8>().unwrap_or(0), rest.trim_start())
}

impl Player {
    /// A line that is a message.
    fn send_line(&mut self, connection: u8, word: Word, rest: &str) -> Result<(), Fault> {
        match word {
            Word::Command => self.ask(connection, rest, true),
            Word::WholeCommand => self.ask(connection, rest, false),
            Word::Look => {
                self.looks = self.looks.saturating_add(1);
                self.ask(LOOKING, rest, true)
            }
            Word::Fill => self.fill(rest),
            Word::Refusal => self.refusal(connection, rest),
            _ => {
                let bytes = bytes_in(self.alloc, rest)?;
                self.begin(Draft::of_bytes(self.alloc, connection, bytes))
            }
        }
    }

    /// A line that is an answer.
    fn answer_line(&mut self, head: Head<'_>, word: Word) -> Result<(), Fault> {
        match word {
            Word::Answer => {
                let wanted = done(document_in(self.alloc, head.rest)?)?;
                self.gives(&wanted)
            }
            Word::Documents => self.gives_documents(head.cursor, head.rest),
            Word::Ids => self.gives_ids(head.cursor, head.rest),
            Word::Frame => self.gives_frame(head.rest),
            Word::Closed => self.is_closed(head.rest),
            Word::Stopped => self.is_stopped(),
            _ => self.gives_nothing(),
        }
    }

    /// A line between messages.
    fn line_between(&mut self, word: Word, rest: &str) -> Result<(), Fault> {
        self.send()?;
        match word {
            Word::Gone => self.gone(number_in(rest)?),
            Word::Reopen => self.reopen(rest),
            Word::Last => self.reopen_last(),
            Word::Fail => self.fail(rest),
            Word::Cut => self.cut(rest),
            Word::Calls => self.calls(rest),
            Word::Check => self.checks(rest),
            Word::Put => self.put(rest),
            Word::Sector => self.sector(rest),
            _ => {
                self.orders.stop_after(number_in(rest)?);
                Ok(())
            }
        }
    }

    /// A line of a table.
    fn row_line(&mut self, word: Word, rest: &str) -> Result<(), Fault> {
        if let Some(subject) = subject_of(self.alloc, word, rest)? {
            self.subject = Some(subject);
            return Ok(());
        }
        match self.subject.as_ref() {
            Some(subject) => subject.is(self.alloc, word, rest),
            None => Err(Fault::Form("there is no text and no bytes above")),
        }
    }

    /// Plays a line.
    pub fn play_line(&mut self, line: &str) -> Result<(), Fault> {
        let line = opened(self.alloc, line)?;
        let (connection, line) = connection_of(line.as_str());
        let head = head_of(line);
        let Some(word) = head.word else {
            return Err(Fault::Form("no line begins so"));
        };
        match word.kind() {
            Kind::Message => self.send_line(connection, word, head.rest),
            Kind::Change => self.change(word, head.rest),
            Kind::Answer => self.answer_line(head, word),
            Kind::Between => self.line_between(word, head.rest),
            Kind::Row => self.row_line(word, head.rest),
        }
    }

    /// Plays lines with this number in place of each `#`.
    fn play_with(&mut self, lines: &[Line], number: i64) -> Result<(), Failure> {
        for line in lines {
            let played = match with_number(self.alloc, line.text.as_str(), number) {
                Ok(text) => self.play_line(text.as_str()),
                Err(fault) => Err(Fault::from(fault)),
            };
            played.map_err(|fault| Failure::at(line, fault))?;
        }
        Ok(())
    }

    /// Plays a message and its answer for each number of a row.
    fn play_each(&mut self, line: &Line, row: &str, lines: &[Line]) -> Result<(), Failure> {
        let numbers = row_in(self.alloc, row).map_err(|fault| Failure::at(line, fault))?;
        for number in numbers.iter() {
            self.play_with(lines, *number)?;
        }
        Ok(())
    }

    /// Plays the first lines, and gives those that are left.
    fn play_some<'a>(&mut self, line: &Line, rest: &'a [Line]) -> Result<&'a [Line], Failure> {
        let Some(row) = line.text.strip_prefix("each ") else {
            let played = self.play_line(line.text.as_str());
            played.map_err(|fault| Failure::at(line, fault))?;
            return Ok(rest);
        };
        let (group, rest) = rest
            .split_at_checked(group_length(rest))
            .unwrap_or((rest, &[]));
        self.play_each(line, row, group)?;
        Ok(rest)
    }

    /// Whether the test ends before this line.
    fn ends_before(&self, line: &Line) -> bool {
        self.manner.last_look > 0 && self.looks == self.manner.last_look && !goes_on(line)
    }

    /// Plays lines to their end, or to that of the last look.
    pub fn play(&mut self, lines: &[Line]) -> Result<(), Failure> {
        let mut rest = lines;
        for _ in 0..lines.len() {
            let Some((line, behind)) = rest.split_first() else {
                break;
            };
            if self.ends_before(line) {
                break;
            }
            rest = self.play_some(line, behind)?;
        }
        match (self.is_idle(), lines.last()) {
            (Err(fault), Some(line)) => Err(Failure::at(line, fault)),
            _ => Ok(()),
        }
    }
}

/// Whether a line belongs to the message above it.
fn goes_on(line: &Line) -> bool {
    let (_, line) = connection_of(line.text.as_str());
    let head = head_of(line);
    match head.word {
        Some(Word::Refusal) => !head.rest.contains(' '),
        Some(word) => word.goes_with_a_message(),
        None => false,
    }
}

/// How many lines are a message with what changes and answers it.
fn group_length(lines: &[Line]) -> usize {
    let mut length: usize = 0;
    for line in lines {
        if length > 0 && !goes_on(line) {
            break;
        }
        length = length.saturating_add(1);
    }
    length
}
