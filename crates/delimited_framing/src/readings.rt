// Laws about all streams.
ghost use Rattle.delimited_framing.specs.Front.{OneReading};
ghost use Rattle.delimited_framing.specs.Frame.{delimited_form, DelimitedIsRead};
ghost use Rattle.delimited_framing.specs.Splitter.{GivenFirst};

/// Each stream is read in exactly one way. Either it consists of frames and a rest without a whole frame or a fault, or
/// of frames and a fault.
pub fn one_reading()
    ensures { OneReading delimited_form }
{}

/// After any order of `feed` and `next`, the returned frames are the first frames of each stream that
/// begins with the fed bytes.
pub fn given_frames_come_first()
    ensures { GivenFirst delimited_form }
{}

/// Bytes that were written after their length are one frame, and several of these are read as they were
/// written.
pub fn delimited_is_read()
    ensures { DelimitedIsRead }
{}
