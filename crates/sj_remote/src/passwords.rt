//! The command that gives a password.
ghost use Rattle.std.specs.Prelude.{◌≡◌, ◌++◌, OnOk, option_map};
ghost use Rattle.sj_resp.specs.Spelling.{command_text};
ghost use Rattle.sj_remote.specs.Passwords.{auth_words};

use sj_base::NoMemory;
use sj_resp::{put_command, put_word};

/// Appends the command that gives the password of that user, or of the usual one if none is named.
#[tactic(auto, unfolding(sj_resp::specs::Spelling::command_text))]
pub fn put_auth(out: &mut Vec<u8>, user: Option<&[u8]>, password: &[u8]) -> Result<(), NoMemory>
    ensures { OnOk result (out.new.items ≡ out.old.items
        ++ command_text (auth_words (option_map (λ u. u.now) user.entry) password.now)) }
{
    match user {
        Some(user) => {
            put_command(out, 3)?;
            put_word(out, b"AUTH")?;
            put_word(out, user)?;
            put_word(out, password)
        }
        None => {
            put_command(out, 2)?;
            put_word(out, b"AUTH")?;
            put_word(out, password)
        }
    }
}
