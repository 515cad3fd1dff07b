//! Plain types that several layers speak of.

ghost use Rattle.std.specs.Prelude.{◌≡◌};

/// How a run of the program ended.
#[derive(Clone, Copy, Debug, PartialEq, Eq)]
pub enum Status {
    /// The output was written whole.
    Ok,
    /// The words are refused.
    Usage,
    /// Memory was missing.
    NoMemory,
    /// The input couldn't be read.
    ReadFault,
    /// The output couldn't be written.
    WriteFault,
    /// The input is no capture.
    BadCapture,
    /// The input has too many bytes or records.
    TooLarge,
    /// A call names a connection that isn't there.
    NoConnection,
}

impl Status {
    ghost use Rattle.sq_base.specs.StatusCode.{code_of};

    /// The exit status of the process: 0 for `Ok`, and 2 to 8 in the order above for the others.
    pub fn code(self) -> u8
        ensures { result ≡ code_of self }
    {
        match self {
            Status::Ok => 0,
            Status::Usage => 2,
            Status::NoMemory => 3,
            Status::ReadFault => 4,
            Status::WriteFault => 5,
            Status::BadCapture => 6,
            Status::TooLarge => 7,
            Status::NoConnection => 8,
        }
    }
}

/// An IPv4 address, its first byte highest (RFC 791).
#[derive(Clone, Copy, Debug, PartialEq, Eq, Hash)]
pub struct Addr(pub u32);

/// The link layer of a capture (libpcap's link types).
#[derive(Clone, Copy, Debug, PartialEq, Eq)]
pub enum Link {
    /// Ethernet, type 1.
    Ethernet,
    /// The datagram alone, type 101.
    RawIp,
    /// Linux cooked, type 113.
    Cooked,
}

impl Link {
    ghost use Rattle.sq_base.specs.Links.{link_of};

    /// The link layer that libpcap's number names, or `None` where captures of that type aren't read.
    pub fn of(number: u32) -> Option<Link>
        ensures { result ≡ link_of number }
    {
        match number {
            1 => Some(Link::Ethernet),
            101 => Some(Link::RawIp),
            113 => Some(Link::Cooked),
            _ => None,
        }
    }
}

/// The two ends of a connection, the client being the one that opens it.
#[derive(Clone, Copy, Debug, PartialEq, Eq, Hash)]
pub struct Tuple {
    /// The client's address and port.
    pub client: Addr,
    pub client_port: u16,
    /// The address and the port that it asks for.
    pub server: Addr,
    pub server_port: u16,
}
