//! What an accepted line does.
ghost use Rattle.std.specs.Prelude.{◌≡◌, ◌<◌, ◌∷◌, ◌++◌, [], None, Some, false, IfOk, OnErr, OnOk};
ghost use Rattle.sj_semantics.specs.Uses.{begins, sends, takes};
ghost use Rattle.sj_talk.specs.Doing.{after_form, answer_to, message_next, texts_after, used_by};
ghost use Rattle.sj_talk.specs.Forms as forms;
ghost use Rattle.sj_talk.specs.Names.{message_of, texts_with};
ghost use Rattle.sj_talk.specs.Play.{IsPlayed, form_at, talk_at, value_at};
ghost use Rattle.sj_talk.specs.Rules.{carried_next, end_under, is_worn, limit_of_lines, place_under, refusal_of};
ghost use Rattle.sj_talk.specs.TalkWorld.{OnlyTexts, with_table};

use crate::Said;
use crate::form::{Form, Value};
use crate::names::{Bound, added, unbind};
use crate::places::carried_next;
use crate::play::Play;
use sj_base::{EndId, Msg, NoMemory};
use sj_lang::{Proto, copied};
use sj_plain::{Ahead, delegate_on, send_on, take_end_on, take_on};
use sj_semantics::Passed;

impl Play {
    /// Does what a line says that no rule refuses. Out of memory it does nothing of it, but its text
    /// may stand in the table.
    pub fn act(&mut self, form: &Form<'_>) -> Result<Said, NoMemory>
        requires played { IsPlayed self.old }
        requires allowed { refusal_of (talk_at self.old) (Some (form_at form.now)) ≡ None }
        ensures said { IfOk result (λ s. s ≡ answer_to (talk_at self.old) (form_at form.now)) }
        ensures ok { OnOk result (talk_at self.new
            ≡ after_form (talk_at self.old) (form_at form.now)) }
        ensures err { OnErr result (OnlyTexts (talk_at self.old)
            (texts_after (talk_at self.old) (form_at form.now)) (talk_at self.new)) }
        ensures played { IsPlayed self.new }
    {
        let said = self.answer_to(form);
        self.perform(form)?;
        Ok(said)
    }

    // What is said of a line that no rule refuses.
    fn answer_to(&self, form: &Form<'_>) -> Said
        ensures { result ≡ answer_to (talk_at self.now) (form_at form.now) }
    {
        match form {
            Form::Take(end) => Said::Took(self.next(end)),
            Form::TakeEnd(end, _) => Said::Took(self.next(end)),
            _ => Said::Fine,
        }
    }

    // Does what the line says.
    fn perform(&mut self, form: &Form<'_>) -> Result<(), NoMemory>
        requires played { IsPlayed self.old }
        requires allowed { refusal_of (talk_at self.old) (Some (form_at form.now)) ≡ None }
        ensures ok { OnOk result (talk_at self.new
            ≡ after_form (talk_at self.old) (form_at form.now)) }
        ensures err { OnErr result (OnlyTexts (talk_at self.old)
            (texts_after (talk_at self.old) (form_at form.now)) (talk_at self.new)) }
        ensures played { IsPlayed self.new }
    {
        match form {
            Form::Send(end, value) => self.send_value(end, value),
            Form::Select(end, label) => self.select(end, label),
            Form::Turn(end, more) => self.send(end, Msg::More(*more)),
            Form::Delegate(end, sent) => self.delegate(end, sent),
            Form::Take(end) => self.take_next(end),
            Form::TakeEnd(end, name) => self.take_end(end, name),
            Form::Close(end) => {
                self.close(end);
                Ok(())
            }
        }
    }

    // The party sends the message on the end of that name.
    fn send(&mut self, end: &[u8], msg: Msg) -> Result<(), NoMemory>
        requires played { IsPlayed self.old }
        requires room { self.old.lines < limit_of_lines }
        ensures ok { OnOk result (talk_at self.new ≡ used_by (talk_at self.old)
            ((end_under (talk_at self.old) end.now, sends msg) ∷ []) (talk_at self.old).ends) }
        ensures err { OnErr result (talk_at self.new ≡ talk_at self.old) }
        ensures played { IsPlayed self.new }
    {
        let end = self.end(end);
        let by = self.party;
        let course = &mut self.course;
        send_on(
            course.alloc,
            &course.table,
            &mut course.sessions,
            end,
            Passed { msg, by },
        )?;
        self.lines += 1;
        Ok(())
    }

    // The message of a value. A text is put into the table where it isn't there.
    fn message(&mut self, value: &Value<'_>) -> Result<Msg, NoMemory>
        requires played { IsPlayed self.old }
        ensures message { IfOk result (λ m.
            m ≡ message_of (talk_at self.old).file (value_at value.now)) }
        ensures ok { OnOk result (talk_at self.new ≡ with_table (talk_at self.old)
            (texts_with (talk_at self.old).file (value_at value.now))) }
        ensures err { OnErr result (OnlyTexts (talk_at self.old)
            (texts_with (talk_at self.old).file (value_at value.now)) (talk_at self.new)) }
        ensures played { IsPlayed self.new }
    {
        match value {
            Value::Int(n) => Ok(Msg::Int(*n)),
            Value::Bool(b) => Ok(Msg::Bool(*b)),
            Value::Text(text) => {
                let number = added(&mut self.file.names.texts, text)?;
                // More texts than a message can name want more memory than there is.
                match u32::try_from(number) {
                    Ok(number) => Ok(Msg::Text(number)),
                    Err(_) => Err(NoMemory),
                }
            }
        }
    }

    fn send_value(&mut self, end: &[u8], value: &Value<'_>) -> Result<(), NoMemory>
        requires played { IsPlayed self.old }
        requires room { self.old.lines < limit_of_lines }
        ensures ok { OnOk result (talk_at self.new
            ≡ after_form (talk_at self.old) (forms.send end.now (value_at value.now))) }
        ensures err { OnErr result (OnlyTexts (talk_at self.old)
            (texts_with (talk_at self.old).file (value_at value.now)) (talk_at self.new)) }
        ensures played { IsPlayed self.new }
    {
        let msg = self.message(value)?;
        self.send(end, msg)
    }

    fn select(&mut self, end: &[u8], label: &[u8]) -> Result<(), NoMemory>
        requires played { IsPlayed self.old }
        requires room { self.old.lines < limit_of_lines }
        ensures ok { OnOk result (talk_at self.new
            ≡ after_form (talk_at self.old) (forms.select end.now label.now)) }
        ensures err { OnErr result (talk_at self.new ≡ talk_at self.old) }
        ensures played { IsPlayed self.new }
    {
        let number = self.label(label).unwrap_or(0);
        self.send(end, Msg::Label(number))
    }

    fn delegate(&mut self, end: &[u8], sent: &[u8]) -> Result<(), NoMemory>
        requires played { IsPlayed self.old }
        requires room { self.old.lines < limit_of_lines }
        requires hops { is_worn (talk_at self.old) sent.now ≡ false }
        ensures ok { OnOk result (talk_at self.new
            ≡ after_form (talk_at self.old) (forms.delegate end.now sent.now)) }
        ensures err { OnErr result (talk_at self.new ≡ talk_at self.old) }
        ensures played { IsPlayed self.new }
    {
        let carrier = self.end(end);
        let end = self.end(sent);
        let by = self.party;
        let course = &mut self.course;
        delegate_on(
            course.alloc,
            &course.table,
            &mut course.sessions,
            carrier,
            end,
            by,
        )?;
        unbind(&mut self.ends, sent);
        self.lines += 1;
        Ok(())
    }

    // The party takes the message from the end of that name.
    fn take(&mut self, end: &[u8], msg: &Msg) -> Result<(), NoMemory>
        requires played { IsPlayed self.old }
        requires room { self.old.lines < limit_of_lines }
        ensures ok { OnOk result (talk_at self.new ≡ used_by (talk_at self.old)
            ((end_under (talk_at self.old) end.now, takes msg.now) ∷ []) (talk_at self.old).ends) }
        ensures err { OnErr result (talk_at self.new ≡ talk_at self.old) }
        ensures played { IsPlayed self.new }
    {
        let end = self.end(end);
        let by = self.party;
        let course = &mut self.course;
        take_on(
            course.alloc,
            &course.table,
            &mut course.sessions,
            end,
            by,
            msg,
        )?;
        self.lines += 1;
        Ok(())
    }

    fn take_next(&mut self, end: &[u8]) -> Result<(), NoMemory>
        requires played { IsPlayed self.old }
        requires room { self.old.lines < limit_of_lines }
        ensures ok { OnOk result (talk_at self.new
            ≡ after_form (talk_at self.old) (forms.take end.now)) }
        ensures err { OnErr result (talk_at self.new ≡ talk_at self.old) }
        ensures played { IsPlayed self.new }
    {
        let msg = self.next(end);
        self.take(end, &msg)
    }

    fn take_end(&mut self, end: &[u8], name: &[u8]) -> Result<(), NoMemory>
        requires played { IsPlayed self.old }
        requires room { self.old.lines < limit_of_lines }
        ensures ok { OnOk result (talk_at self.new
            ≡ after_form (talk_at self.old) (forms.take_end end.now name.now)) }
        ensures err { OnErr result (talk_at self.new ≡ talk_at self.old) }
        ensures played { IsPlayed self.new }
    {
        let msg = self.next(end);
        match msg {
            Msg::Sess { sess, side, .. } => self.bind(end, name, &msg, EndId { sess, side }),
            _ => self.take(end, &msg),
        }
    }

    // The party takes the message, which names the end, and has that end under the second name.
    fn bind(&mut self, end: &[u8], name: &[u8], msg: &Msg, taken: EndId) -> Result<(), NoMemory>
        requires played { IsPlayed self.old }
        requires room { self.old.lines < limit_of_lines }
        ensures ok { OnOk result (talk_at self.new ≡ used_by (talk_at self.old)
            ((end_under (talk_at self.old) end.now, takes msg.now)
            ∷ (taken, begins (carried_next (place_under (talk_at self.old) end.now))) ∷ [])
            ((talk_at self.old).ends ++ (name.now, taken) ∷ [])) }
        ensures err { OnErr result (talk_at self.new ≡ talk_at self.old) }
        ensures played { IsPlayed self.new }
    {
        let place = self.carried_place(end)?;
        let name = Vec::from_slice(self.course.alloc, name)?;
        let end = self.end(end);
        let by = self.party;
        self.ends.reserve(1)?;
        let course = &mut self.course;
        take_end_on(
            course.alloc,
            &course.table,
            &mut course.sessions,
            end,
            by,
            msg,
            taken,
            Ahead::Own(place),
        )?;
        self.ends.push_reserved(Bound { name, end: taken });
        self.lines += 1;
        Ok(())
    }

    fn close(&mut self, end: &[u8])
        requires played { IsPlayed self.old }
        requires room { self.old.lines < limit_of_lines }
        ensures ok { talk_at self.new ≡ after_form (talk_at self.old) (forms.close end.now) }
        ensures played { IsPlayed self.new }
    {
        unbind(&mut self.ends, end);
        self.lines += 1;
    }

    // A copy of the place of the ends that the end of that name carries next; the empty place where
    // it carries none.
    fn carried_place(&self, end: &[u8]) -> Result<Proto, NoMemory>
        ensures { IfOk result (λ p. p ≡ carried_next (place_under (talk_at self.now) end.now)) }
    {
        let front = self.front(end)?;
        match carried_next(front.items()) {
            Some(carried) => copied(self.course.alloc, carried),
            None => {
                let items = Vec::new(self.course.alloc);
                Ok(Proto { items })
            }
        }
    }

    // The message that the end of that name can take next.
    fn next(&self, end: &[u8]) -> Msg
        ensures { result ≡ message_next (talk_at self.now) end.now }
    {
        self.head(end).unwrap_or(Msg::More(false))
    }
}
