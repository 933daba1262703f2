// The text of an answer, and how it is put to the front of a row of bytes.
ghost use Rattle.std.specs.Prelude.{◌≡◌, ◌+◌, ◌<◌, ◌≤◌, ◌++◌, length, IfOk};
ghost use Rattle.replies.specs.Texts.{reply_words, longest_reply, put_answer, put_after};

use super::reply::Reply;
use arrayvec::ArrayString;
use itoa::{Buffer, Integer};
use keys::Refusal;
use requests::Answer;

const LONGEST_REPLY: usize = 40;

// Adds a name, and a number in decimal behind it.
fn push_named<N: Integer>(text: &mut ArrayString<LONGEST_REPLY>, name: &str, number: N)
    requires { length text.old.bytes + length name.now + N.MAX_STR_LEN ≤ longest_reply }
    ensures bytes { text.new.bytes ≡ text.old.bytes ++ (name.now ++ N.text number) }
    ensures bound { length text.new.bytes ≤ length text.old.bytes + length name.now + N.MAX_STR_LEN }
{
    text.push_str(name);
    text.push_str(Buffer::new().format(number));
}

// Kept: no Display, since a formatter may fail, and an answer is always put where there is room.
fn words_of(reply: &Reply) -> ArrayString<LONGEST_REPLY>
    ensures words { result.bytes ≡ reply_words reply.now }
    ensures bound { length result.bytes < longest_reply }
{
    let mut text = ArrayString::new();
    match reply {
        Reply::Submitted { number } => push_named(&mut text, "number ", *number),
        Reply::Followed { place, head } => {
            push_named(&mut text, "at ", *place);
            push_named(&mut text, " head ", *head);
        }
        Reply::Carried(carried) => text.push_str(carried.word()),
        Reply::Collected { number, answer } => {
            push_named(&mut text, "number ", *number);
            push_named(&mut text, " answer ", answer.code());
            if let Answer::Counted(tally) = answer {
                push_named(&mut text, " tally ", tally.value());
            }
        }
        Reply::Refused(refusal) => push_named(&mut text, "refused ", u8::from(*refusal)),
    }
    text
}

// Puts the text of an answer to the front, and tells how long it is. Fewer than 40 bytes are too short, and are kept.
pub fn put_reply(reply: &Reply, out: &mut [u8]) -> Result<usize, Refusal>
    ensures answer { result ≡ put_answer reply.now out.old }
    ensures after { out.new ≡ put_after reply.now out.old }
    ensures bound { IfOk result (λ size. size ≤ longest_reply) }
{
    if out.len() < LONGEST_REPLY {
        return Err(Refusal::TooShort);
    }
    let mut text = words_of(reply);
    text.push('\n');
    let size = text.len();
    out[..size].copy_from_slice(text.as_bytes());
    Ok(size)
}
