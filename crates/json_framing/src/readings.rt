// Laws about all streams.
ghost use Rattle.delimited_framing.specs.Front.{OneReading};
ghost use Rattle.delimited_framing.specs.Splitter.{GivenFirst};
ghost use Rattle.json_framing.specs.Lines.{line_form};

/// Each stream is read in exactly one way. Either it consists of lines and a rest without a whole line or a fault, or
/// of lines and a fault.
pub fn one_reading()
    ensures { OneReading line_form }
{}

/// After any order of `feed` and `next`, the returned lines are the first lines of each stream that begins with the fed
/// bytes.
pub fn given_lines_come_first()
    ensures { GivenFirst line_form }
{}
