//! The rules by which a line is refused, in their order.
ghost use Rattle.std.specs.Prelude.{◌≡◌, Bool, IfOk, Some};
ghost use Rattle.sj_talk.specs.Forms as forms;
ghost use Rattle.sj_talk.specs.Play.{form_at, talk_at, value_at};
ghost use Rattle.sj_talk.specs.Rules.{first_rule, refusal_of};

use crate::form::{Form, Value};
use crate::places::{
    carried_next, is_done, is_next, offers, selects, sends_end, sends_value, stands, takes_end,
    takes_no_end, turns,
};
use crate::play::Play;
use sj_base::NoMemory;

/// It has none of the forms.
pub const NO_FORM: u8 = 1;

/// An end isn't bound.
const NOT_BOUND: u8 = 2;

/// The place begins otherwise.
const BEGINS_OTHERWISE: u8 = 3;

/// The two names are one, the sent end's place is empty, or the new name is bound.
const WRONG_END: u8 = 4;

/// Another kind, a label outside the choice, or a place that doesn't stand for the carried one.
const WRONG_KIND: u8 = 5;

/// So many lines were accepted, or the sent end was delegated so often.
const AT_LIMIT: u8 = 6;

/// Nothing is there to take.
const NOTHING_THERE: u8 = 7;

impl Play {
    /// The first rule that refuses what a line says. The place of an end that is delegated is copied,
    /// and no other.
    pub fn refusal(&self, form: &Form<'_>) -> Result<Option<u8>, NoMemory>
        ensures { IfOk result (λ r. r ≡ refusal_of (talk_at self.now) (Some (form_at form.now))) }
    {
        match form {
            Form::Send(end, value) => self.send_refusal(end, value),
            Form::Select(end, label) => self.select_refusal(end, label),
            Form::Turn(end, _) => self.turn_refusal(end),
            Form::Delegate(end, sent) => self.delegate_refusal(end, sent),
            Form::Take(end) => self.take_refusal(end),
            Form::TakeEnd(end, name) => self.take_end_refusal(end, name),
            Form::Close(end) => self.close_refusal(end),
        }
    }

    fn send_refusal(&self, end: &[u8], value: &Value<'_>) -> Result<Option<u8>, NoMemory>
        ensures { IfOk result (λ r. r ≡ refusal_of (talk_at self.now)
            (Some (forms.send end.now (value_at value.now)))) }
    {
        let front = self.front(end)?;
        let items = front.items();
        Ok(first_rule(&[
            (NOT_BOUND, self.is_free(end)),
            (BEGINS_OTHERWISE, !sends_value(items)),
            (WRONG_KIND, !is_next(items, value)),
            (AT_LIMIT, self.is_full()),
        ]))
    }

    fn select_refusal(&self, end: &[u8], label: &[u8]) -> Result<Option<u8>, NoMemory>
        ensures { IfOk result (λ r. r
            ≡ refusal_of (talk_at self.now) (Some (forms.select end.now label.now))) }
    {
        let front = self.front(end)?;
        let items = front.items();
        Ok(first_rule(&[
            (NOT_BOUND, self.is_free(end)),
            (BEGINS_OTHERWISE, !selects(items)),
            (WRONG_KIND, !offers(items, self.label(label))),
            (AT_LIMIT, self.is_full()),
        ]))
    }

    fn turn_refusal(&self, end: &[u8]) -> Result<Option<u8>, NoMemory>
        ensures { (more : Bool) → IfOk result (λ r. r
            ≡ refusal_of (talk_at self.now) (Some (forms.turn end.now more))) }
    {
        let front = self.front(end)?;
        Ok(first_rule(&[
            (NOT_BOUND, self.is_free(end)),
            (BEGINS_OTHERWISE, !turns(front.items())),
            (AT_LIMIT, self.is_full()),
        ]))
    }

    fn delegate_refusal(&self, end: &[u8], sent: &[u8]) -> Result<Option<u8>, NoMemory>
        ensures { IfOk result (λ r. r
            ≡ refusal_of (talk_at self.now) (Some (forms.delegate end.now sent.now))) }
    {
        let front = self.front(end)?;
        let items = front.items();
        let own = self.place(sent)?;
        Ok(first_rule(&[
            (NOT_BOUND, self.is_free(end) || self.is_free(sent)),
            (BEGINS_OTHERWISE, !sends_end(items)),
            (WRONG_END, end == sent || is_done(&own.items)),
            (
                WRONG_KIND,
                !stands(self.course.alloc, &own, carried_next(items)),
            ),
            (AT_LIMIT, self.is_full() || self.is_worn(sent)),
        ]))
    }

    fn take_refusal(&self, end: &[u8]) -> Result<Option<u8>, NoMemory>
        ensures { IfOk result (λ r. r
            ≡ refusal_of (talk_at self.now) (Some (forms.take end.now))) }
    {
        let front = self.front(end)?;
        Ok(first_rule(&[
            (NOT_BOUND, self.is_free(end)),
            (BEGINS_OTHERWISE, !takes_no_end(front.items())),
            (AT_LIMIT, self.is_full()),
            (NOTHING_THERE, self.head(end).is_none()),
        ]))
    }

    fn take_end_refusal(&self, end: &[u8], name: &[u8]) -> Result<Option<u8>, NoMemory>
        ensures { IfOk result (λ r. r
            ≡ refusal_of (talk_at self.now) (Some (forms.take_end end.now name.now))) }
    {
        let front = self.front(end)?;
        Ok(first_rule(&[
            (NOT_BOUND, self.is_free(end)),
            (BEGINS_OTHERWISE, !takes_end(front.items())),
            (WRONG_END, !self.is_free(name)),
            (AT_LIMIT, self.is_full()),
            (NOTHING_THERE, self.head(end).is_none()),
        ]))
    }

    fn close_refusal(&self, end: &[u8]) -> Result<Option<u8>, NoMemory>
        ensures { IfOk result (λ r. r
            ≡ refusal_of (talk_at self.now) (Some (forms.close end.now))) }
    {
        let front = self.front(end)?;
        Ok(first_rule(&[
            (NOT_BOUND, self.is_free(end)),
            (BEGINS_OTHERWISE, !is_done(front.items())),
            (AT_LIMIT, self.is_full()),
        ]))
    }
}

// The first rule that applies, of rules in their order, each with whether it does.
fn first_rule(tests: &[(u8, bool)]) -> Option<u8>
    ensures { result ≡ first_rule tests.now }
{
    for test in tests {
        if test.1 {
            return Some(test.0);
        }
    }
    None
}
