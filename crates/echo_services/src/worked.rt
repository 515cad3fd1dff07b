//! Worked exchanges, computed on the definitions: what one connection is given, what the service sends, and the state then.
//! Each is a function that does nothing, whose contract is the exchange.

ghost use Rattle.std.specs.List.{AllByRecursion};
ghost use Rattle.echo_services.specs.Daytime.{daytime};
ghost use Rattle.echo_services.specs.Exchanges.{IsAnswered, exchanges as all_exchanges};
ghost use Rattle.echo_services.specs.Worked as row;
ghost use Rattle.echo_services.specs.Worked.{IsEchoed, IsServed};

/// One echo from handshake to close, in five segments.
pub fn five_segment_echo()
    ensures { IsEchoed row.five_segment_echo }
{}

/// Sequence numbers that pass 2^32.
pub fn sequence_numbers_wrap()
    ensures { IsEchoed row.sequence_numbers_wrap }
{}

/// Text out of order is acknowledged as missing, and given back in order once the gap is filled. A repeated text is acknowledged again.
pub fn text_out_of_order()
    ensures { IsEchoed row.text_out_of_order }
{}

/// A receive space of 4 bytes: what is beyond it is dropped.
pub fn small_buffer()
    ensures { IsEchoed row.small_buffer }
{}

/// A window of 0 is probed with one byte, and what is left goes once it opens.
pub fn zero_window_probe()
    ensures { IsEchoed row.zero_window_probe }
{}

/// RST at RCV.NXT ends the connection.
pub fn reset_at_next()
    ensures { IsEchoed row.reset_at_next }
{}

/// RST elsewhere in the window is challenged (RFC 5961).
pub fn reset_in_window()
    ensures { IsEchoed row.reset_in_window }
{}

/// RST before the window is dropped.
pub fn reset_before_window()
    ensures { IsEchoed row.reset_before_window }
{}

/// RST behind the window is dropped.
pub fn reset_behind_window()
    ensures { IsEchoed row.reset_behind_window }
{}

/// The SYN,ACK is sent again after 1, 2, 4 seconds and so on, up to 60.
pub fn handshake_retransmissions()
    ensures { IsEchoed row.handshake_retransmissions }
{}

/// A new connection with the ends of one that closed.
pub fn tuple_used_again()
    ensures { IsEchoed row.tuple_used_again }
{}

/// A SYN that comes twice is challenged.
pub fn repeated_syn()
    ensures { IsEchoed row.repeated_syn }
{}

/// A program closes before its peer does.
pub fn closed_by_a_call()
    ensures { IsEchoed row.closed_by_a_call }
{}

/// Window scale, ours: windows are announced divided by 32.
pub fn scaled_five_segment_echo()
    ensures { IsEchoed row.scaled_five_segment_echo }
{}

/// Window scale, the peer's: a window of 1 holds 4 bytes.
pub fn scaled_small_window()
    ensures { IsEchoed row.scaled_small_window }
{}

/// A shift over 14 counts as 14.
pub fn scale_over_fourteen()
    ensures { IsEchoed row.scale_over_fourteen }
{}

/// All further exchanges: each state, each check of a segment, each deadline, and discard.
pub fn exchanges()
    ensures { AllByRecursion IsAnswered all_exchanges }
{}

/// Daytime sends its line and closes first (RFC 867).
pub fn daytime_closes_first()
    ensures { IsServed (daytime row.day) row.daytime_closes_first }
{}

/// A line that waits for the window, and our FIN behind it.
pub fn daytime_small_window()
    ensures { IsServed (daytime row.day) row.daytime_small_window }
{}

/// The line comes too where the client closes first.
pub fn daytime_behind_the_close()
    ensures { IsServed (daytime row.day) row.daytime_behind_the_close }
{}
