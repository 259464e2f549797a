//! The tokens of values that hold no others.

ghost use Rattle.std.specs.Prelude.{◌≡◌, ◌≤◌, ◌*◌, ◌∷◌, [], map, length, IsAscii, codes};
ghost use Rattle.json.specs.Reads.{token_of};
ghost use Rattle.json.specs.Token as json;
ghost use Rattle.json.specs.Print.{IsNumber};
ghost use Rattle.ext_json.specs.Written as spec;
ghost use Rattle.ext_json.specs.Written.{CanWrite, Puts, binary_tokens, timestamp_tokens, wrapped, long, int32_tokens, int64_tokens, date_tokens};
ghost use Rattle.ext_json.specs.Calendar.{moment_of, moment_text};
ghost use Rattle.hex.specs.Hex.{encode_lower};

use crate::calendar::{moment_of, text_of_milli, text_of_second};
use crate::form::Form;
use crate::numbers::is_int32;
use base64::engine::general_purpose::STANDARD;
use bson::{Binary, ObjectId};
use itoa::Buffer;
use json::{Token, Writer};
use std::alloc::{AllocError, Global};

/// The last millisecond of the year 9999.
const LAST_MILLIS: i64 = 253_402_300_799_999;

/// Puts tokens one behind the other.
fn put_all(out: &mut Writer, tokens: &[Token<'_>]) -> Result<(), AllocError>
    requires { CanWrite (map token_of tokens.now) }
    ensures { Puts result out.old out.new (map token_of tokens.now) }
{
    'tokens: for token in tokens {
        out.token(*token)?;
    }
    Ok(())
}

fn ascii_text(bytes: &[u8]) -> &str
    requires { IsAscii bytes.now }
    ensures { result.now ≡ bytes.now }
{
    match str::from_utf8(bytes) {
        Ok(text) => text,
        Err(_) => unreachable!(),
    }
}

/// An object of one member, a text.
fn put_text<'a>(out: &mut Writer, name: &'a str, text: &'a str) -> Result<(), AllocError>
    ensures { Puts result out.old out.new (wrapped name.now (json.string text.now ∷ [])) }
{
    put_all(
        out,
        &[
            Token::BeginObject,
            Token::Key(name),
            Token::String(text),
            Token::EndObject,
        ],
    )
}

/// `$minKey` or `$maxKey`.
pub(crate) fn put_one(out: &mut Writer, name: &str) -> Result<(), AllocError>
    ensures { Puts result out.old out.new (wrapped name.now (json.number (codes "1") ∷ [])) }
{
    put_all(
        out,
        &[
            Token::BeginObject,
            Token::Key(name),
            Token::Number("1"),
            Token::EndObject,
        ],
    )
}

pub(crate) fn put_int32(out: &mut Writer, form: Form, number: i32) -> Result<(), AllocError>
    ensures { Puts result out.old out.new (int32_tokens form number) }
{
    let mut buffer = Buffer::new();
    let text = buffer.format(number);
    match form {
        Form::Canonical => put_text(out, "$numberInt", text),
        Form::Relaxed => put_all(out, &[Token::Number(text)]),
    }
}

pub(crate) fn put_int64(out: &mut Writer, form: Form, number: i64) -> Result<(), AllocError>
    ensures { Puts result out.old out.new (int64_tokens form number) }
{
    let mut buffer = Buffer::new();
    let text = buffer.format(number);
    match form {
        Form::Canonical => put_text(out, "$numberLong", text),
        Form::Relaxed if is_int32(number) => put_text(out, "$numberLong", text),
        Form::Relaxed => put_all(out, &[Token::Number(text)]),
    }
}

/// A moment from 1970 up to the year 9999.
fn put_moment(out: &mut Writer, millis: u64) -> Result<(), AllocError>
    requires { millis ≤ 253402300799999 }
    ensures { Puts result out.old out.new
        (wrapped (codes "$date") (json.string (moment_text (moment_of millis)) ∷ [])) }
{
    let moment = moment_of(millis);
    if moment.milli == 0 {
        put_text(out, "$date", ascii_text(&text_of_second(moment)))
    } else {
        put_text(out, "$date", ascii_text(&text_of_milli(moment)))
    }
}

/// A date as its number of milliseconds.
fn put_millis(out: &mut Writer, millis: i64) -> Result<(), AllocError>
    ensures { Puts result out.old out.new (wrapped (codes "$date") (long millis)) }
{
    let mut buffer = Buffer::new();
    put_all(
        out,
        &[
            Token::BeginObject,
            Token::Key("$date"),
            Token::BeginObject,
            Token::Key("$numberLong"),
            Token::String(buffer.format(millis)),
            Token::EndObject,
            Token::EndObject,
        ],
    )
}

pub(crate) fn put_date(out: &mut Writer, form: Form, millis: i64) -> Result<(), AllocError>
    ensures { Puts result out.old out.new (date_tokens form millis) }
{
    match form {
        Form::Relaxed if 0 <= millis && millis <= LAST_MILLIS => put_moment(out, millis as u64),
        _ => put_millis(out, millis),
    }
}

/// The object of a timestamp, of its two halves in decimal.
fn put_halves<'a>(out: &mut Writer, seconds: &'a str, count: &'a str) -> Result<(), AllocError>
    requires seconds { IsNumber seconds.now }
    requires count { IsNumber count.now }
    ensures { Puts result out.old out.new (spec.timestamp_of seconds.now count.now) }
{
    put_all(
        out,
        &[
            Token::BeginObject,
            Token::Key("$timestamp"),
            Token::BeginObject,
            Token::Key("t"),
            Token::Number(seconds),
            Token::Key("i"),
            Token::Number(count),
            Token::EndObject,
            Token::EndObject,
        ],
    )
}

pub(crate) fn put_timestamp(out: &mut Writer, number: u64) -> Result<(), AllocError>
    ensures { Puts result out.old out.new (timestamp_tokens number) }
{
    let mut seconds = Buffer::new();
    let mut count = Buffer::new();
    put_halves(
        out,
        seconds.format(number / 0x1_0000_0000),
        count.format(number % 0x1_0000_0000),
    )
}

/// The two hex digits of each of these bytes.
fn put_hex(bytes: &[u8], digits: &mut [u8])
    requires { length digits.old ≡ 2 * length bytes.now }
    ensures { digits.new ≡ encode_lower bytes.now }
{
    match hex::encode_to_slice(bytes, digits) {
        Ok(()) => {}
        Err(_) => unreachable!(),
    }
}

pub(crate) fn put_object_id(out: &mut Writer, id: &ObjectId) -> Result<(), AllocError>
    ensures { Puts result out.old out.new
        (wrapped (codes "$oid") (json.string (encode_lower id.now) ∷ [])) }
{
    let mut digits = [0; 24];
    put_hex(id.bytes(), &mut digits);
    put_text(out, "$oid", ascii_text(&digits))
}

/// The object of a binary, of its bytes in base 64 and its subtype in hex digits.
fn put_encoded<'a>(out: &mut Writer, bytes: &'a str, subtype: &'a str) -> Result<(), AllocError>
    ensures { Puts result out.old out.new (spec.binary_of bytes.now subtype.now) }
{
    put_all(
        out,
        &[
            Token::BeginObject,
            Token::Key("$binary"),
            Token::BeginObject,
            Token::Key("base64"),
            Token::String(bytes),
            Token::Key("subType"),
            Token::String(subtype),
            Token::EndObject,
            Token::EndObject,
        ],
    )
}

pub(crate) fn put_binary(alloc: Global, out: &mut Writer, binary: &Binary) -> Result<(), AllocError>
    ensures { Puts result out.old out.new
        (binary_tokens binary.now.subtype binary.now.bytes) }
{
    let text = STANDARD.encode(alloc, binary.bytes.as_slice())?;
    let mut digits = [0; 2];
    put_hex(&[binary.subtype.byte()], &mut digits);
    put_encoded(out, text.as_str(), ascii_text(&digits))
}

pub(crate) fn put_string(out: &mut Writer, text: &str) -> Result<(), AllocError>
    ensures { Puts result out.old out.new (json.string text.now ∷ []) }
{
    put_all(out, &[Token::String(text)])
}

pub(crate) fn put_bool(out: &mut Writer, is_true: bool) -> Result<(), AllocError>
    ensures { Puts result out.old out.new (json.boolean is_true ∷ []) }
{
    put_all(out, &[Token::Bool(is_true)])
}

pub(crate) fn put_null(out: &mut Writer) -> Result<(), AllocError>
    ensures { Puts result out.old out.new (json.null ∷ []) }
{
    put_all(out, &[Token::Null])
}
