// Document 01, "Trial": a device judged against a rule's table.
#![tactic(auto)]

ghost use Rattle.std.specs.Prelude.{◌≡◌, ◌≤◌, ◌<◌, false, length, [], ◌∷◌};
ghost use mathlib.Core.Option.{none};
ghost use Rattle.refusal.specs.RefusalAnswers.{judgement};
ghost use Rattle.values.specs.{HandedIn.{setup_of}, SetupTests.{setup_refusal}};
ghost use Rattle.conformance.specs.Trial.{input};
ghost use Rattle.conformance.specs.TrialAnswer.{handed_refusal, trial_refusal, first_failure, found_answer, shown, trial_answer, trial_buffer};
ghost use Rattle.conformance.specs.PairQueue.{input_of};
ghost use Rattle.conformance.specs.PairQueue.{comparison_on, below_on, equal_on, JudgedPair};
ghost use Rattle.conformance.specs.PairQueue.{has_pair, pushed, Ready, HoldsPairs, Expandable, Expanded, Found};
ghost use Rattle.conformance.specs.PairQueue.{Reaches, Deep, Writable, WrittenWord};
ghost use Rattle.limits.specs.Limits.{event_limit, device_limit, table_limit};

use limits::{DEVICE_LIMIT, TABLE_LIMIT, WORD_LIMIT};
use machines::{Device, Table, check_table, next_at, value_at};
use refusal::Refusal;
use values::{Comparison, SetUp, ValueSet, compare};

// The places of the search's queue where there are few pairs of states, and where there are as many as of two devices.
const SMALL_QUEUE: usize = 256;

const MIDDLE_QUEUE: usize = DEVICE_LIMIT * DEVICE_LIMIT;

// How a device passes (document 02, F-5): with the rule's values on every event sequence, or with some that are strictly below.
#[derive(Clone, Copy)]
pub enum Grade {
    Same,
    Stricter,
}

// The verdict of a trial; a failed one has the word's length.
#[derive(Clone, Copy)]
pub enum Verdict {
    Pass(Grade),
    Fail(usize),
}

// A device beside a rule's table, over an accepted set-up.
#[derive(Clone, Copy)]
struct Pairing<'a> {
    events: usize,
    values: ValueSet<'a>,
    table: Table<'a>,
    device: Device<'a>,
}

// Where the device fails: at a place of the queue, on an event.
#[derive(Clone, Copy)]
struct Failure {
    place: usize,
    event: usize,
}

// A pair of states that was reached: its device state, its table state, the place of the pair that it was reached from and the event.
#[derive(Clone, Copy)]
struct Pair {
    device: u8,
    table: u8,
    event: u8,
    parent: u16,
}

// The pairs of states that were reached, in their order; and of each pair of states a flag that it is among them.
#[derive(Drop)]
struct Queue<const SIZE: usize> {
    count: usize,
    pairs: [Pair; SIZE],
    flags: [bool; SIZE],
}

impl Pairing<'_> {
    // How in a pair of states the device's value on an event compares with the table's. Values are compared here only.
    fn compare_on(&self, s: usize, t: usize, e: usize) -> Comparison
        requires { (self.now.events ≤ event_limit) × (s < 256) × (t < 256) × (e < self.now.events) }
        ensures { result ≡ comparison_on (input_of self.now) s t e }
    {
        let kind = self.values.kind;
        let b = value_at(kind, self.device.table.entries, s * self.events + e);
        let c = value_at(kind, self.table.entries, t * self.events + e);
        compare(kind, self.values.meet, b, c)
    }

    // Judges a pair of states, events rising: the first event on which the device fails, or whether all its values are equal. Where there
    // are few pairs, a call for each took a sixth of the time.
    #[inline(always)]
    fn judge_pair(&self, s: usize, t: usize) -> Result<bool, usize>
        requires { (self.now.events ≤ event_limit) × (s < 256) × (t < 256) }
        ensures { JudgedPair self.now.events (below_on (input_of self.now) s t) (equal_on (input_of self.now) s t) result }
    {
        let mut all_equal = true;
        for e in 0..self.events {
            let compared = self.compare_on(s, t, e);
            if matches!(compared, Comparison::NotBelow) {
                return Err(e);
            }
            // A flag set in an arm of a match takes up to twice the time.
            all_equal &= matches!(compared, Comparison::Equal);
        }
        Ok(all_equal)
    }

    // The check of a device and a table over a set-up that was accepted: refusals 11 and 13.
    fn check(&self, word: &[u8]) -> Result<(), Refusal>
        ensures { result ≡ judgement (handed_refusal device_limit table_limit (input_of self.now) word.now) }
    {
        let rule = Device {
            table: self.table,
            start: 0,
        };
        check_table(DEVICE_LIMIT, self.events, self.values.kind, self.device)?;
        check_table(TABLE_LIMIT, self.events, self.values.kind, rule)?;
        if word.len() < WORD_LIMIT {
            return Err(Refusal::BufferLength);
        }
        Ok(())
    }

    // Searches the pairs of states that events reach from the device's start and the table's state 0, and writes the first word on which
    // the device fails.
    fn search<const SIZE: usize>(&self, word: &mut [u8]) -> Verdict
        requires ready { Ready SIZE (input_of self.now) }
        requires room { SIZE ≤ length word.old }
        ensures answer { result ≡ found_answer (input_of self.now) }
        ensures contents { word.new ≡ shown (first_failure (input_of self.now)) word.old }
    {
        let mut queue = Queue {
            count: 0,
            pairs: [Pair {
                device: 0,
                table: 0,
                event: 0,
                parent: 0,
            }; SIZE],
            flags: [false; SIZE],
        };
        let start = self.device.start;
        let first = Pair {
            device: start as u8,
            table: 0,
            event: 0,
            parent: 0,
        };
        queue.push(start * self.table.states, first);
        match queue.find_failure(self) {
            Ok(true) => Verdict::Pass(Grade::Same),
            Ok(false) => Verdict::Pass(Grade::Stricter),
            Err(failure) => {
                let n = queue.depth(failure.place);
                word[n] = failure.event as u8;
                queue.write_path(failure.place, n, word);
                Verdict::Fail(n + 1)
            }
        }
    }

    // The search over more than few pairs, where what is handed in is accepted. It stays a function of its own, so that the compiler makes
    // no room for these queues where they are not used.
    #[inline(never)]
    fn search_large(&self, word: &mut [u8]) -> Verdict
        requires { trial_refusal device_limit table_limit (input_of self.now) word.old ≡ none }
        ensures answer { result ≡ found_answer (input_of self.now) }
        ensures contents { word.new ≡ shown (first_failure (input_of self.now)) word.old }
    {
        let pairs = self.device.table.states * self.table.states;
        if pairs <= MIDDLE_QUEUE {
            return self.search::<MIDDLE_QUEUE>(word);
        }
        self.search::<WORD_LIMIT>(word)
    }

    // The trial over a set-up that was accepted. Few pairs do not wait for large arrays to be cleared.
    fn judge(&self, word: &mut [u8]) -> Result<Verdict, Refusal>
        requires { setup_refusal (input_of self.now).set_up ≡ none }
        ensures answer { result ≡ trial_answer device_limit table_limit (input_of self.now) word.old }
        ensures contents { word.new ≡ trial_buffer device_limit table_limit (input_of self.now) word.old }
    {
        self.check(word)?;
        if self.device.table.states * self.table.states <= SMALL_QUEUE {
            return Ok(self.search::<SMALL_QUEUE>(word));
        }
        Ok(self.search_large(word))
    }
}

impl<const SIZE: usize> Queue<SIZE> {
    // Puts a pair of states at the end, where its flag does not say that it is in the queue.
    fn push(&mut self, flag: usize, pair: Pair)
        requires flag_in { flag < SIZE }
        requires room { has_pair self.old flag ≡ false → self.old.count < SIZE }
        ensures { self.new ≡ pushed self.old flag pair }
    {
        if !self.flags[flag] {
            self.flags[flag] = true;
            self.pairs[self.count] = pair;
            self.count += 1;
        }
    }

    // Puts the successors of the pair at a place in the queue, events rising.
    fn push_successors(&mut self, pairing: &Pairing<'_>, i: usize)
        requires ready { Ready SIZE (input_of pairing.now) }
        requires held { Expandable (input_of pairing.now) self.old i }
        ensures { Expanded (input_of pairing.now) self.old i self.new }
    {
        let kind = pairing.values.kind;
        let pair = self.pairs[i];
        let s = usize::from(pair.device);
        let t = usize::from(pair.table);
        for e in 0..pairing.events {
            let x = next_at(kind, pairing.device.table.entries, s * pairing.events + e);
            let y = next_at(kind, pairing.table.entries, t * pairing.events + e);
            let next = Pair {
                device: x as u8,
                table: y as u8,
                event: e as u8,
                parent: i as u16,
            };
            self.push(x * pairing.table.states + y, next);
        }
    }

    // Takes pairs from the queue, the start's first, until one fails or none is left; then it tells whether all values were equal.
    fn find_failure(&mut self, pairing: &Pairing<'_>) -> Result<bool, Failure>
        requires ready { Ready SIZE (input_of pairing.now) }
        requires held { HoldsPairs (input_of pairing.now) ([] ∷ []) self.old }
        ensures { Found (input_of pairing.now) result self.new }
    {
        let mut same = true;
        let mut i = 0;
        // The queue grows as it is read, so no `for` goes over its places.
        while i < self.count {
            let pair = self.pairs[i];
            let s = usize::from(pair.device);
            let t = usize::from(pair.table);
            match pairing.judge_pair(s, t) {
                Ok(equal) => same &= equal,
                Err(event) => return Err(Failure { place: i, event }),
            }
            self.push_successors(pairing, i);
            i += 1;
        }
        Ok(same)
    }

    // How many events lead to a place.
    fn depth(&self, place: usize) -> usize
        requires { Reaches place self.now.pairs }
        ensures { Deep place self.now.pairs result }
    {
        let mut n = 0;
        let mut j = place;
        while j != 0 {
            j = usize::from(self.pairs[j].parent);
            n += 1;
        }
        n
    }

    // Writes the n events that lead to a place, in order of play, to the front of the buffer.
    fn write_path(&self, place: usize, n: usize, word: &mut [u8])
        requires { Writable place n self.now.pairs word.old }
        ensures { WrittenWord place n self.now.pairs word.old word.new }
    {
        let mut j = place;
        for at in (0..n).rev() {
            word[at] = self.pairs[j].event;
            j = usize::from(self.pairs[j].parent);
        }
    }
}

// The trial of a device against a rule's table, both in bytes. It passes as same where every event sequence ends in equal values, and else
// as stricter (document 02, F-5). A failed one has the first word on which the device fails written to the front of the buffer; the two
// tables fix that word and its length (F-1).
pub fn trial(
    set_up: SetUp<'_>,
    table: Table<'_>,
    device: Device<'_>,
    word: &mut [u8],
) -> Result<Verdict, Refusal>
    ensures answer { result ≡ trial_answer device_limit table_limit
        (input (setup_of set_up.entry) table.entry.states table.entry.entries.now
        device.entry.table.states device.entry.start device.entry.table.entries.now) word.old }
    ensures contents { word.new ≡ trial_buffer device_limit table_limit
        (input (setup_of set_up.entry) table.entry.states table.entry.entries.now
        device.entry.table.states device.entry.start device.entry.table.entries.now) word.old }
{
    let values = set_up.check()?;
    let pairing = Pairing {
        events: set_up.events,
        values,
        table,
        device,
    };
    pairing.judge(word)
}
