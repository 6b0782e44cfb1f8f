ghost use Rattle.std.specs.Prelude.{◌≡◌, ◌≢◌, ◌≤◌, ◌<◌, ◌+◌, ◌++◌, ◌==◌, ℕ, List, [], true, false, length, take, nat_lt, vec_capacity, IfOk, OnOk, OnErr, Ok};
ghost use Rattle.std.specs.List.{before_first};
ghost use Rattle.std.specs.Io.KnownBytes.{Consumes, Keeps, IsAtEnd};
ghost use Rattle.spectro_io.specs.declared.line_reader.Got.TheVariants.{Line, End, Over};
ghost use Rattle.spectro_io.specs.Faults.{HasCause};
ghost use Rattle.spectro_io.specs.Limits.{read_limit};
ghost use Rattle.spectro_io.specs.LineSteps.{gathered, answered, refilled};
ghost use Rattle.spectro_io.specs.LineReaders.{has_line_feed, Holds, Takes, AnswersLine, AnswersEnd, HoldsUnended, KeepsLine};

use crate::lines::{LINE_LIMIT, line_feed, without_cr};
use crate::read::PIECE;
use crate::{Failed, READ_LIMIT, Source};
use std::alloc::{AllocError, Global};
use std::marker::Model;
use std::mem::swap;

// Bytes that are gathered of a line: two more than are kept tell whether the line is longer, a CR at its end
// not counted.
const BEGUN_LIMIT: usize = LINE_LIMIT + 2;

/// What a reader of lines answers.
#[derive(Clone, Copy, Debug, PartialEq, Eq)]
pub enum Got {
    /// A line.
    Line,
    /// No line is left.
    End,
    /// There are more bytes than a text may have.
    Over,
}

/// Reads lines one by one, from 67,108,865 bytes at most. Of a line it keeps 32,768 bytes.
#[derive(Drop)]
pub struct LineReader {
    taken: usize,

    // What was read last, of which the bytes from one place to the other are ahead.
    piece: Vec<u8>,
    at: usize,
    end: usize,

    // The first bytes of the line that is begun.
    begun: Vec<u8>,

    // The line that was answered last.
    line: Vec<u8>,
    cut: bool,
}

impl Model for LineReader {
    ghost use Rattle.std.specs.Prelude.{slice_range};
    ghost use Rattle.spectro_io.specs.LineReaders.{ReaderState};

    ghost Value = { ReaderState };

    ghost view = { λ r. record { taken = r.taken; begun = r.begun.items; ahead = slice_range r.piece.items r.at r.end; line = r.line.items; cut = r.cut } };

    ghost use Rattle.spectro_io.specs.Buffers.{HasRoom};

    ghost invariant = { HasRoom };
}

// Puts the bytes after those that are begun, up to the limit.
fn put_front(front: &mut Vec<u8>, bytes: &[u8])
    requires room { BEGUN_LIMIT ≤ vec_capacity front.old }
    requires within { length front.old.items ≤ BEGUN_LIMIT }
    ensures bytes { front.new.items ≡ take BEGUN_LIMIT (front.old.items ++ bytes.now) }
    ensures room { BEGUN_LIMIT ≤ vec_capacity front.new }
{
    let count = bytes.len().min(BEGUN_LIMIT - front.len());
    front.extend_from_slice(&bytes[..count]).unwrap();
}

// Reads into the front of the piece.
fn read_front<S: Source>(source: &mut S, piece: &mut [u8], room: usize) -> Result<usize, Failed>
    requires some { 0 < room }
    requires within { room ≤ length piece.old }
    ensures bound { IfOk result (λ count. count ≤ room) }
    ensures bytes { IfOk result (λ count. Consumes (S.left source.old) (S.left source.new) (take count piece.new)) }
    ensures none { IfOk result (λ count. count ≡ 0 → IsAtEnd (S.left source.new)) }
    ensures kept { OnErr result (Keeps (S.left source.old) (S.left source.new)) }
    ensures texts { S.texts source.new ≡ S.texts source.old }
    ensures cause { HasCause (S.faults source.old) (S.faults source.new) result }
{
    source.read(&mut piece[..room])
}

impl LineReader {
    /// Takes all of the memory that the reader needs.
    pub fn new(alloc: Global) -> Result<LineReader, AllocError>
        ensures ok { IfOk result (λ reader. reader ≡ record { taken = 0; begun = []; ahead = []; line = []; cut = false }) }
        ensures holds { IfOk result (λ reader. Holds reader []) }
    {
        Ok(LineReader {
            taken: 0,
            piece: vec![in alloc; 0u8; PIECE]?,
            at: 0,
            end: 0,
            begun: Vec::with_capacity(alloc, BEGUN_LIMIT)?,
            line: Vec::with_capacity(alloc, BEGUN_LIMIT)?,
            cut: false,
        })
    }

    /// The line of the last `Line`, without its line end; empty before the first one.
    pub fn line(&self) -> &[u8]
        ensures { result.now ≡ self.now.line }
    {
        &self.line
    }

    /// Whether that line was longer.
    pub fn cut(&self) -> bool
        ensures { result ≡ self.now.cut }
    {
        self.cut
    }

    // Moves what is ahead, up to the first LF, to the line that is begun. Answers whether there was an LF.
    #[tactic(auto, unfolding(crate::specs::Limits::read_limit))]
    fn gather(&mut self) -> bool
        ensures found { result ≡ has_line_feed self.old.ahead }
        ensures after { self.new ≡ gathered self.old }
        ensures within { self.old.taken ≤ read_limit }
    {
        let ahead = &self.piece[self.at..self.end];
        let feed = line_feed(ahead);
        let count = feed.unwrap_or(ahead.len());
        put_front(&mut self.begun, &ahead[..count]);
        self.at = self.end.min(self.at + count + 1);
        feed.is_some()
    }

    // Makes the line that is begun the one that was answered last.
    fn answer(&mut self)
        ensures { self.new ≡ answered self.old }
    {
        swap(&mut self.begun, &mut self.line);
        self.begun.clear();
        let len = without_cr(&self.line).len();
        self.line.truncate(len.min(LINE_LIMIT));
        self.cut = len > LINE_LIMIT;
    }

    // Whether as many bytes were taken as are read of a text.
    #[tactic(auto, unfolding(crate::specs::Limits::read_limit))]
    fn is_full(&self) -> bool
        ensures { result ≡ (self.now.taken == read_limit) }
    {
        self.taken == READ_LIMIT
    }

    // Reads what comes ahead, and answers whether there was any.
    #[tactic(auto, unfolding(crate::specs::Limits::read_limit))]
    fn refill<S: Source>(&mut self, source: &mut S) -> Result<bool, Failed>
        requires done { self.old.ahead ≡ [] }
        requires within { self.old.taken < read_limit }
        ensures bytes { OnOk result (Consumes (S.left source.old) (S.left source.new) self.new.ahead) }
        ensures after { OnOk result (self.new ≡ refilled self.old self.new.ahead) }
        ensures some { IfOk result (λ some. some ≡ nat_lt 0 (length self.new.ahead)) }
        ensures none { OnOk result (self.new.ahead ≡ [] → IsAtEnd (S.left source.new)) }
        ensures kept { OnErr result (Keeps (S.left source.old) (S.left source.new)) }
        ensures err { OnErr result (self.new ≡ self.old) }
        ensures texts { S.texts source.new ≡ S.texts source.old }
        ensures cause { HasCause (S.faults source.old) (S.faults source.new) result }
    {
        let room = PIECE.min(READ_LIMIT - self.taken);
        self.at = 0;
        self.end = 0;
        self.end = read_front(source, &mut self.piece, room)?;
        self.taken += self.end;
        Ok(self.end > 0)
    }

    // Answers the line that is begun, if there is one.
    fn last(&mut self) -> Got
        ensures line { result ≡ Line → self.new ≡ answered self.old }
        ensures some { result ≡ Line → self.old.begun ≢ [] }
        ensures none { result ≡ End → self.old.begun ≡ [] }
        ensures over { result ≢ Over }
        ensures kept { result ≢ Line → self.new ≡ self.old }
    {
        if self.begun.is_empty() {
            return Got::End;
        }
        self.answer();
        Got::Line
    }

    /// The next line, or why there is none. At most 65,536 bytes are lent to a read, and after a failure or the
    /// end of the source the call can be made again.
    pub fn next<S: Source>(&mut self, source: &mut S) -> Result<Got, Failed>
        ensures line { result ≡ Ok Line → Takes self.old self.new (S.left source.old) (S.left source.new) (AnswersLine self.new (S.left source.new)) }
        ensures end { result ≡ Ok End → Takes self.old self.new (S.left source.old) (S.left source.new) (AnswersEnd self.new (S.left source.new)) }
        ensures over { result ≡ Ok Over → Takes self.old self.new (S.left source.old) (S.left source.new) (HoldsUnended self.new) }
        ensures full { result ≡ Ok Over → self.new.taken ≡ read_limit }
        ensures err { OnErr result (Takes self.old self.new (S.left source.old) (S.left source.new) (HoldsUnended self.new)) }
        ensures room { OnErr result (self.new.taken < read_limit) }
        ensures within { self.new.taken ≤ read_limit }
        ensures kept { result ≢ Ok Line → KeepsLine self.old self.new }
        ensures ready { (held : List ℕ) → Holds self.old held → has_line_feed held ≡ true → source.new ≡ source.old }
        ensures texts { S.texts source.new ≡ S.texts source.old }
        ensures cause { HasCause (S.faults source.old) (S.faults source.new) result }
    {
        'taking: while !self.gather() {
            if self.is_full() {
                return Ok(Got::Over);
            }
            if !self.refill(source)? {
                return Ok(self.last());
            }
        }
        self.answer();
        Ok(Got::Line)
    }
}
