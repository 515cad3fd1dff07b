//! A host and its port, as a Host field and the target of an http URI have them.

ghost use Rattle.std.specs.Prelude.{◌≡◌};
ghost use Rattle.std.specs.Char.{is_ascii_digit};
ghost use Rattle.std.specs.List.{list_all};
ghost use Rattle.http_pages.specs.Hosts.{is_address_byte, is_authority, is_host, is_literal, is_name_after, is_name_byte, is_port};

use crate::cuts::cut;

fn is_name_byte(b: u8) -> bool
    ensures { result ≡ is_name_byte b }
{
    b.is_ascii_alphanumeric() || b"-._~!$&'()*+,;=".contains(&b)
}

/// Whether a text is a name, each of whose percent signs has two hexadecimal digits behind it (RFC 3986, 3.2.2).
fn is_name(name: &[u8]) -> bool
    ensures { result ≡ is_name_after 0 name.now }
{
    let mut owed: u8 = 0;
    let mut bytes = name;
    while let [b, rest @ ..] = bytes {
        if owed > 0 {
            if !b.is_ascii_hexdigit() {
                return false;
            }
            owed -= 1;
        } else if *b == b'%' {
            owed = 2;
        } else if !is_name_byte(*b) {
            return false;
        }
        bytes = rest;
    }
    owed == 0
}

fn are_digits(text: &[u8]) -> bool
    ensures { result ≡ list_all is_ascii_digit text.now }
{
    text.iter().all(|b| b.is_ascii_digit())
}

fn is_port(text: &[u8]) -> bool
    ensures { result ≡ is_port text.now }
{
    match text {
        [] => true,
        [b, digits @ ..] => *b == b':' && are_digits(digits),
    }
}

fn are_address_bytes(text: &[u8]) -> bool
    ensures { result ≡ list_all is_address_byte text.now }
{
    text.iter().all(|b| is_name_byte(*b) || *b == b':')
}

/// An address behind its first bracket, and a port.
fn is_literal(text: &[u8]) -> bool
    ensures { result ≡ is_literal text.now }
{
    let (address, port) = cut(text, b']');
    !address.is_empty() && are_address_bytes(address) && text.contains(&b']') && is_port(port)
}

/// Whether a text is a host, with a port or without one (RFC 9112, 3.2). A name may be empty.
pub fn is_host(text: &[u8]) -> bool
    ensures { result ≡ is_host text.now }
{
    match text {
        [] => true,
        [b'[', rest @ ..] => is_literal(rest),
        _ => {
            let (name, port) = cut(text, b':');
            is_name(name) && are_digits(port)
        }
    }
}

/// Whether a text is the authority of an http URI (RFC 9110, 4.2.1 and 4.2.4).
pub fn is_authority(text: &[u8]) -> bool
    ensures { result ≡ is_authority text.now }
{
    !text.is_empty() && text[0] != b':' && is_host(text)
}
