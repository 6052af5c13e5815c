// Totals of pulses, and the distance that they are (document 02, F-6): refusal 19.
ghost use Rattle.std.specs.Prelude.{◌≡◌, ◌+◌, ◌≤◌, length, take};
ghost use Rattle.channel_log.specs.Distance.{reading};
ghost use Rattle.channel_log.specs.Log.{large_total};
ghost use Rattle.recorder.specs.Store.{wheel_of, reading_of};
ghost use Rattle.recorder.specs.Decisions.{sum_of, Measurable, pulse_block};
ghost use Rattle.refusal.specs.RefusalAnswers.{answered};

use crate::{Reading, Wheel};
use limits::TOTAL_LIMIT;
use refusal::Refusal;

// So many pulses are added up before the total is looked at.
const PULSE_BLOCK: usize = 4096;

// A total with more pulses, or 19.
pub fn total_with(total: u64, pulses: u64) -> Result<u64, Refusal>
    ensures { result ≡ answered (large_total (total + pulses)) (total + pulses) }
{
    if TOTAL_LIMIT < total || TOTAL_LIMIT - total < pulses {
        return Err(Refusal::PulseTotal);
    }
    Ok(total + pulses)
}

fn pulse_sum(pulses: &[u32]) -> u64
    requires { length pulses.now ≤ pulse_block }
    ensures { result ≡ sum_of pulses.now }
{
    let mut sum: u64 = 0;
    for p in pulses {
        sum += u64::from(*p);
    }
    sum
}

// The total with the pulses of so many events, or 19.
pub fn total_with_all(total: u64, pulses: &[u32], count: usize) -> Result<u64, Refusal>
    ensures { result ≡ answered (large_total (total + sum_of (take count pulses.now))) (total + sum_of (take count pulses.now)) }
{
    let end = count.min(pulses.len());
    let mut sum = total_with(total, 0)?;
    let mut i: usize = 0;
    while i < end {
        let next = i + PULSE_BLOCK.min(end - i);
        sum = total_with(sum, pulse_sum(&pulses[i..next]))?;
        i = next;
    }
    Ok(sum)
}

impl Wheel {
    // A value with the distance of a total.
    pub(crate) fn measured(self, value: u32, total: u64) -> Reading
        requires { Measurable (wheel_of self) total }
        ensures { reading_of result ≡ reading (wheel_of self) value total }
    {
        let parts = total * u64::from(self.millimetres);
        let pulses = u64::from(self.pulses);
        Reading {
            value,
            millimetres: parts / pulses,
            remainder: (parts % pulses) as u32,
        }
    }
}
