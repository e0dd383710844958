// The verbs of the protocol, over the memory that they are lent.
ghost use Rattle.std.specs.Prelude.{◌≡◌, ◌≤◌, ◌↔◌, length, take, vec_len, IfOk, IfErr, IsOk};
ghost use Rattle.answer_line.specs.declared.reply.Fault.TheVariants.{BadLine};
ghost use Rattle.answer.specs.Verbs.{said, identifier_said, tokens_said, read_said, unquote_said, reformat_said, compare_said};

use answer_line::reply::{Fault, Reply};
use answer_line::tokens::Tokens;
use answer_line::word;
use eon_spec::{FormatOptions, RECORD_WORDS, Setting, TEXT_MAX};
use std::alloc::{AllocError, Global};

// More than the longest text, so that one is refused for its length.
const TEXT_BYTES: usize = TEXT_MAX + 5;

// A second text, a table's bytes, a setting, an unquoted value or a layout.
const ROOM_BYTES: usize = 524288;

// A record more than the longest text has bytes.
const TABLE_WORDS: usize = RECORD_WORDS * (TEXT_MAX + 1);

#[derive(Drop)]
pub(crate) struct Desk {
    text: Vec<u8>,
    room: Vec<u8>,
    table: Vec<u32>,
    other: Vec<u32>,
}

impl Desk {
    pub(crate) fn new(alloc: Global) -> Result<Self, AllocError>
        ensures text { IfOk result (λ desk. vec_len desk.text ≡ TEXT_BYTES) }
        ensures room { IfOk result (λ desk. vec_len desk.room ≡ ROOM_BYTES) }
        ensures table { IfOk result (λ desk. vec_len desk.table ≡ TABLE_WORDS) }
        ensures other { IfOk result (λ desk. vec_len desk.other ≡ TABLE_WORDS) }
    {
        Ok(Desk {
            text: vec![in alloc; 0; TEXT_BYTES]?,
            room: vec![in alloc; 0; ROOM_BYTES]?,
            table: vec![in alloc; 0; TABLE_WORDS]?,
            other: vec![in alloc; 0; TABLE_WORDS]?,
        })
    }

    // What the verb gives on the words behind it.
    pub(crate) fn answer(&mut self, words: &[&[u8]]) -> Result<Reply<'_>, Fault> {
        match words {
            [b"identifier", text] => self.identifier(text),
            [b"tokens", text] => self.tokens(text),
            [b"unquote", text] => self.unquote(text, ROOM_BYTES),
            [b"unquote", text, bytes] => self.unquote(text, word::number(bytes)?),
            [b"read", text] => self.read(text, TABLE_WORDS),
            [b"read", text, words] => self.read(text, word::number(words)?),
            [b"compare", text, other] => self.compare(text, other),
            [b"format", text, settings @ .., braces] => self.format(text, settings, braces),
            [b"layout", text, table, bytes] => self.layout(text, table, word::number(bytes)?),
            [b"reformat", text, words, bytes] => {
                self.reformat(text, word::number(words)?, word::number(bytes)?)
            }
            _ => Err(Fault::BadLine),
        }
    }

    fn identifier(&mut self, text: &[u8]) -> Result<Reply<'_>, Fault>
        ensures { said result ≡ identifier_said (vec_len self.old.text) text.now }
    {
        let text = word::bytes(text, &mut self.text)?;
        Ok(Reply::Truth(eon_syntax::is_valid_identifier(text)))
    }

    fn tokens(&mut self, text: &[u8]) -> Result<Reply<'_>, Fault>
        ensures { said result ≡ tokens_said (vec_len self.old.text) text.now }
    {
        let text = word::bytes(text, &mut self.text)?;
        Ok(Reply::Tokens(Tokens::of(text)?))
    }

    // The value of a quoted text, unescaped into a scratch of so many bytes.
    fn unquote(&mut self, quoted: &[u8], bytes: usize) -> Result<Reply<'_>, Fault>
        ensures { said result ≡ unquote_said (vec_len self.old.text) (vec_len self.old.room) quoted.now bytes }
    {
        let quoted = word::bytes(quoted, &mut self.text)?;
        let scratch = lent(&mut self.room, bytes)?;
        let part = eon_syntax::unescape_and_unquote(quoted, scratch)?;
        Ok(Reply::Bytes(eon_syntax::show(quoted, scratch, part)))
    }

    // The records of a text, read into a table of so many words.
    fn read(&mut self, text: &[u8], words: usize) -> Result<Reply<'_>, Fault>
        ensures { said result ≡ read_said (vec_len self.old.text) (vec_len self.old.table) text.now words }
    {
        let text = word::bytes(text, &mut self.text)?;
        let table = lent(&mut self.table, words)?;
        let records = eon_syntax::read(text, table)?;
        let end = records.saturating_mul(RECORD_WORDS).min(table.len());
        Ok(Reply::Table(&table[..end]))
    }

    // Both are read, and the first that is refused is the answer.
    fn compare(&mut self, text1: &[u8], text2: &[u8]) -> Result<Reply<'_>, Fault>
        ensures { said result ≡
            compare_said (vec_len self.old.text) (vec_len self.old.room) (vec_len self.old.table) (vec_len self.old.other) text1.now text2.now }
    {
        let text1 = word::bytes(text1, &mut self.text)?;
        let text2 = word::bytes(text2, &mut self.room)?;
        let table = self.table.as_mut_slice();
        let other = self.other.as_mut_slice();
        eon_syntax::read(text1, table)?;
        eon_syntax::read(text2, other)?;
        let equal = eon_syntax::compare(text1, table, text2, other)?;
        Ok(Reply::Truth(equal))
    }

    // The text is read, and then laid out. What reading refuses is not said here: layout refuses it as well, in its own order.
    fn format(
        &mut self,
        text: &[u8],
        settings: &[&[u8]],
        braces: &[u8],
    ) -> Result<Reply<'_>, Fault> {
        let options = self.options(settings, braces)?;
        let text = word::bytes(text, &mut self.text)?;
        let _ = eon_syntax::read(text, &mut self.table);
        let written = eon_syntax::format(text, &self.table, options, &mut self.room)?;
        Ok(Reply::Bytes(front(&self.room, written)))
    }

    // Four settings, and whether there are outer braces.
    fn options(&mut self, settings: &[&[u8]], braces: &[u8]) -> Result<FormatOptions, Fault> {
        let [indentation, newline, space, separator] = settings else {
            return Err(Fault::BadLine);
        };
        Ok(FormatOptions {
            indentation: self.setting(indentation)?,
            newline: self.setting(newline)?,
            space_before_suffix_comment: self.setting(space)?,
            key_value_separator: self.setting(separator)?,
            always_include_outer_braces: match braces {
                b"0" => false,
                b"1" => true,
                _ => return Err(Fault::BadLine),
            },
        })
    }

    fn setting(&mut self, word: &[u8]) -> Result<Setting, Fault> {
        Ok(Setting::new(word::bytes(word, &mut self.room)?))
    }

    // A text is laid out by a table into so many bytes. The table is handed over in the room that the output takes afterwards.
    fn layout(&mut self, text: &[u8], table: &[u8], bytes: usize) -> Result<Reply<'_>, Fault> {
        let text = word::bytes(text, &mut self.text)?;
        let table = word::table(word::bytes(table, &mut self.room)?, &mut self.table)?;
        let out = lent(&mut self.room, bytes)?;
        let written = eon_syntax::format(text, table, FormatOptions::default(), out)?;
        Ok(Reply::Bytes(front(out, written)))
    }

    // A text is read into a table of so many words, and laid out into so many bytes. What it has in common with `layout` are calls already:
    // joined, it would only take them as arguments. So it is with `format`, and with `read` and `unquote`.
    fn reformat(&mut self, text: &[u8], words: usize, bytes: usize) -> Result<Reply<'_>, Fault>
        ensures { said result ≡
            reformat_said (vec_len self.old.text) (vec_len self.old.table) (vec_len self.old.room) text.now words bytes }
    {
        let text = word::bytes(text, &mut self.text)?;
        let table = lent(&mut self.table, words)?;
        let out = lent(&mut self.room, bytes)?;
        let written = eon_syntax::reformat(text, table, FormatOptions::default(), out)?;
        Ok(Reply::Bytes(front(out, written)))
    }
}

// The first of a memory.
fn lent<T>(memory: &mut [T], len: usize) -> Result<&mut [T], Fault>
    ensures size { IfOk result (λ lent. length lent.now ≡ len) }
    ensures found { IsOk result ↔ (len ≤ length memory.old) }
    ensures fault { IfErr result (λ fault. fault ≡ BadLine) }
{
    memory.get_mut(..len).ok_or(Fault::BadLine)
}

// The first bytes, as many as there are.
fn front(bytes: &[u8], n: usize) -> &[u8]
    ensures { result.now ≡ take n bytes.now }
{
    &bytes[..n.min(bytes.len())]
}
