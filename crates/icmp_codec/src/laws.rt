//! A request is answered in its own length, and its reply is read as one, and as nothing else. So is what a router says.

ghost use Rattle.std.specs.Prelude.{◌≡◌, ◌<◌, ℕ, Bool, List, All, Some};
ghost use Rattle.sq_base.specs.declared.kinds.Link.TheVariants.{RawIp};
ghost use Rattle.segment_codec.specs.Packet.{packet_in};
ghost use Rattle.segment_codec.specs.declared.packet.Packet.TheVariants as packet;
ghost use Rattle.icmp_codec.specs.Answered.{Fits, IsReadFrom, ReadsAsReply, IsNoRequest};
ghost use Rattle.icmp_codec.specs.EchoRequest.{PingOf, ping_in};
ghost use Rattle.icmp_codec.specs.EchoReply.{pong_bytes};
ghost use Rattle.icmp_codec.specs.TooLong.{IsNoPing, IsNoSegment};
ghost use Rattle.icmp_codec.specs.Unreachable.{IsNotPing, IsNotSegment, IsNotTooLong};

/// A request that was read from bytes has numbers that fit their fields, and its reply is as long as its datagram was.
pub fn a_request_fits()
    ensures { (ip : List ℕ) (ping : PingOf) → All (λ b. b < 256) ip → ping_in ip ≡ Some ping → IsReadFrom ip ping }
{}

/// What is read as a request is another protocol than TCP to `segment_codec`'s reader, with or without its checksums verified.
pub fn a_request_is_no_segment()
    ensures { (ip : List ℕ) (ping : PingOf) (verify : Bool) → ping_in ip ≡ Some ping → packet_in RawIp ip verify ≡ packet.Other }
{}

/// The bytes of a reply are read as an echo reply, with the request's ends exchanged and its rest as it came.
pub fn a_reply_is_read_as_one()
    ensures { (ping : PingOf) → Fits ping → ReadsAsReply ping }
{}

/// The bytes of a reply are no request. So it is never answered, and two servers can't be set on each other.
pub fn a_reply_is_no_request()
    ensures { (ping : PingOf) → IsNoRequest (pong_bytes ping) }
{}

/// What a router says of a datagram that is too long is no echo request, and another protocol than TCP to `segment_codec`'s reader.
pub fn a_report_is_apart()
    ensures request { IsNoPing }
    ensures segment { IsNoSegment }
{}

/// What a router says of a datagram that didn't arrive is none of one that was too long, no echo request, and another protocol than TCP to
/// `segment_codec`'s reader.
pub fn an_unreachable_is_apart()
    ensures long { IsNotTooLong }
    ensures request { IsNotPing }
    ensures segment { IsNotSegment }
{}
