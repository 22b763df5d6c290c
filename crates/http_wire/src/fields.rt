// The fields of a head, as parts of its bytes.
ghost use Rattle.std.specs.Prelude.{◌≡◌, All, codes, length, map, option_copied};
ghost use Rattle.std.specs.List.{list_all, list_any};
ghost use Rattle.httparse.specs.Spans.{IsHeaderWithin, header_bytes};
ghost use Rattle.http_wire.specs.Fields.{body_len, closes, first_value, has_field, is_length_of, length_for, lists_close, one_length, values};

use crate::methods::Method;
use crate::values::{is_same_name, length_of, lists_close};
use httparse::spans::HeaderSpan;

/// The most bytes of a body.
const MOST_BODY_BYTES: u64 = 4_096;

/// The fields of a head, in their order. A value has no blanks around it.
#[derive(Clone, Copy)]
pub struct Fields<'a> {
    head: &'a [u8],
    spans: &'a [HeaderSpan],
    pub ghost within: { All (IsHeaderWithin (length head.now)) spans.now },
}

impl<'a> Fields<'a> {
    ghost use Rattle.http_wire.specs.Told.{told_fields};

    /// The fields of a head at these places.
    pub fn at(head: &'a [u8], spans: &'a [HeaderSpan]) -> Fields<'a>
        requires { All (IsHeaderWithin (length head.now)) spans.now }
        ensures { told_fields result ≡ map (header_bytes head.now) spans.now }
    {
        Fields { head, spans }
    }

    /// The value of the first field of that name, without regard to case. None where no field has it.
    pub fn first(&self, name: &[u8]) -> Option<&'a [u8]>
        ensures { option_copied result ≡ first_value name.now (told_fields self.now) }
    {
        for span in self.spans {
            if is_same_name(span.name.of(self.head), name) {
                return Some(span.value.of(self.head));
            }
        }
        None
    }

    /// Whether a field has that name, without regard to case.
    pub fn has(&self, name: &[u8]) -> bool
        ensures { result ≡ has_field name.now (told_fields self.now) }
    {
        self.first(name).is_some()
    }

    /// How long the body after the head is, by the method and the fields. The status that refuses it is 501 where there is a
    /// `Transfer-Encoding`; else 400 where a `Content-Length` is no run of 1 to 18 digits, or two of them differ as numbers; else
    /// 411 where a POST has none; else 413 where it is above 4,096.
    pub fn body_len(&self, method: &[u8]) -> Result<usize, u16>
        ensures { result ≡ body_len method.now (told_fields self.now) }
    {
        if self.has(b"transfer-encoding") {
            return Err(501);
        }
        match self.content_length()? {
            None if method == Method::Post.name() => Err(411),
            None => Ok(0),
            Some(len) if len > MOST_BODY_BYTES => Err(413),
            Some(len) => Ok(len as usize),
        }
    }

    /// Whether the connection closes after the reply: the version is 1.0, or a `Connection` lists `close`.
    pub fn closes(&self, minor: u8) -> bool
        ensures { result ≡ closes minor (told_fields self.now) }
    {
        minor == 0 || self.lists_close()
    }

    /// The number that the `Content-Length` fields spell, where there are any. 400 where one is no run of 1 to 18 digits, or two
    /// of them differ as numbers.
    fn content_length(&self) -> Result<Option<u64>, u16>
        ensures { result ≡ one_length (values (codes "content-length") (told_fields self.now)) }
    {
        let Some(first) = self.first(b"content-length") else {
            return Ok(None);
        };
        match length_of(first) {
            Some(len) if self.all_spell(len) => Ok(Some(len)),
            _ => Err(400),
        }
    }

    /// Whether each `Content-Length` spells that number.
    fn all_spell(&self, len: u64) -> bool
        ensures { result
            ≡ list_all (is_length_of len) (values (codes "content-length") (told_fields self.now)) }
    {
        for span in self.spans {
            if is_same_name(span.name.of(self.head), b"content-length")
                && length_of(span.value.of(self.head)) != Some(len)
            {
                return false;
            }
        }
        true
    }

    /// Whether a `Connection` lists `close`.
    fn lists_close(&self) -> bool
        ensures { result
            ≡ list_any lists_close (values (codes "connection") (told_fields self.now)) }
    {
        for span in self.spans {
            if is_same_name(span.name.of(self.head), b"connection")
                && lists_close(span.value.of(self.head))
            {
                return true;
            }
        }
        false
    }
}
