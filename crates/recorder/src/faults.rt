// Refusals 17, 18, 25, 14 and 15 of a tool: what each call is refused with before its own inputs are looked at.
ghost use Rattle.std.specs.Prelude.{◌≡◌, ◌<◌, length, OnOk};
ghost use Rattle.limits.specs.Limits.{channel_limit};
ghost use Rattle.channel_log.specs.Calls as calls;
ghost use Rattle.channel_log.specs.Distance.{wheel_of_turn};
ghost use Rattle.recorder.specs.Store.{counted_setup, store_of, wheel_of, tool_setup};
ghost use Rattle.recorder.specs.ToolTests.{turn_test, wheel_test, setup_test, test_of, tool_test, tool_setup_refusal};
ghost use Rattle.values.specs.HandedIn.{setup_of};
ghost use Rattle.recorder.specs.Decisions.{fault_of, named_refusal, loaded_refusal};
ghost use Rattle.refusal.specs.RefusalAnswers.{judgement};
ghost use Rattle.recorder.specs.Called.{fault_refusal};

use crate::kinds::Kind;
use crate::row_store::{entries_below, rows_fit, rows_start};
use crate::{Tool, ToolSetup, Wheel};
use limits::{CHANNEL_LIMIT, TABLE_LIMIT, TOTAL_LIMIT, TURN_LIMIT};
use refusal::Refusal;
use values::SetUp;

fn turn_in_order(n: usize) -> bool
    ensures { result ≡ turn_test n }
{
    1 <= n && n <= TURN_LIMIT
}

// Whether a wheel does not meet 18.
fn wheel_in_order(pulses: usize, millimetres: usize) -> bool
    ensures { result ≡ wheel_test (wheel_of_turn pulses millimetres) }
{
    turn_in_order(pulses) && turn_in_order(millimetres)
}

// 1 to 3, or 1 and 20, of a set-up, then 18.
pub fn check_tool(set_up: SetUp<'_>, pulses: usize, millimetres: usize) -> Result<(), Refusal>
    ensures { result ≡ judgement (tool_setup_refusal (tool_setup (setup_of set_up.entry) (wheel_of_turn pulses millimetres))) }
{
    set_up.check()?;
    if !wheel_in_order(pulses, millimetres) {
        return Err(Refusal::SetupWheel);
    }
    Ok(())
}

impl<K: Kind> ToolSetup<K> {
    // Whether the set-up meets none of 1 to 3, or of 1 and 20, nor 18.
    #[inline(always)]
    fn in_order(&self) -> bool
        ensures { result ≡ setup_test (tool_setup (counted_setup K.meaning self.now.events self.now.kind) (wheel_of self.now.wheel)) }
    {
        self.kind.handed_in(self.events).check().is_ok()
            && wheel_in_order(self.wheel.pulses as usize, self.wheel.millimetres as usize)
    }
}

impl<K: Kind> Tool<K, K::Column> {
    // Refusal 17's test of one channel.
    #[inline(always)]
    fn channel_in_order(&self, channel: usize) -> bool
        requires { channel < channel_limit }
        ensures { result ≡ test_of (store_of K.meaning self.now) channel }
    {
        let states = usize::from(self.states[channel]);
        if states == 0 {
            return true;
        }
        if TABLE_LIMIT < states {
            return false;
        }
        if states <= usize::from(self.current[channel]) {
            return false;
        }
        if TOTAL_LIMIT < self.total[channel] {
            return false;
        }
        let at = rows_start(&self.states, channel, self.setup.events);
        let entries = states * usize::from(self.setup.events);
        self.setup.kind.values_fit(&self.value, at, entries)
            && entries_below(&self.next, at, entries, states)
    }

    // 17's test of the set-up and the named channel; one above 7 holds nothing.
    #[inline(always)]
    fn named_in_order(&self, channel: usize) -> bool
        ensures { result ≡ tool_test (store_of K.meaning self.now) (calls.restart channel) }
    {
        if !self.setup.in_order() {
            return false;
        }
        if CHANNEL_LIMIT <= channel {
            return true;
        }
        self.channel_in_order(channel)
    }

    // The same of all channels.
    #[inline(always)]
    fn all_in_order(&self) -> bool
        ensures { result ≡ tool_test (store_of K.meaning self.now) calls.restart_all }
    {
        if !self.setup.in_order() {
            return false;
        }
        for channel in 0..CHANNEL_LIMIT {
            if !self.channel_in_order(channel) {
                return false;
            }
        }
        true
    }

    // 17, where its test failed, then 25.
    #[inline(always)]
    fn check_store(&self, in_order: bool) -> Result<(), Refusal>
        ensures { result ≡ judgement (fault_of (store_of K.meaning self.now) in_order) }
    {
        if !in_order {
            return Err(Refusal::ToolContents);
        }
        if !rows_fit(&self.states) {
            return Err(Refusal::RowTotal);
        }
        Ok(())
    }

    // 17 and 25 of all channels.
    #[inline(always)]
    pub(crate) fn check_all(&self) -> Result<(), Refusal>
        ensures { result ≡ judgement (fault_refusal (store_of K.meaning self.now) calls.restart_all) }
    {
        self.check_store(self.all_in_order())
    }

    // 17 and 25, then 14.
    #[inline(always)]
    pub(crate) fn check(&self, channel: usize) -> Result<(), Refusal>
        ensures refusal { result ≡ judgement (named_refusal (store_of K.meaning self.now) channel) }
        ensures inside { OnOk result (channel < channel_limit) }
    {
        self.check_store(self.named_in_order(channel))?;
        if CHANNEL_LIMIT <= channel {
            return Err(Refusal::ChannelNumber);
        }
        Ok(())
    }

    // Then 15.
    #[inline(always)]
    pub(crate) fn check_loaded(&self, channel: usize) -> Result<(), Refusal>
        ensures refusal { result ≡ judgement (loaded_refusal (store_of K.meaning self.now) channel) }
        ensures inside { OnOk result (channel < channel_limit) }
    {
        self.check(channel)?;
        if self.states[channel] == 0 {
            return Err(Refusal::ChannelEmpty);
        }
        Ok(())
    }
}
