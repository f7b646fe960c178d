// The laws of the definitions. Each is proved of all values, and no call does anything.
ghost use Rattle.slate_read.specs.RunBringing.{UnopenedRunsBring};
ghost use Rattle.slate_read.specs.Showing.{UnopenedRunsShow, UnopenedWalksShow};
ghost use Rattle.slate_read.specs.SstBringing.{UnopenedWalksBring};

/// Of what iterators over stored tables refuse that weren't opened. Beside want of an `init`, and a seek to a key before the
/// range, it is damage that their reads show: the index of a table was read and is refused, or a block was that the index names.
pub fn unopened_refusals()
    ensures walks { UnopenedWalksShow }
    ensures runs { UnopenedRunsShow }
{}

/// Of the rows that an iterator over one stored table hands out, which wasn't opened. Its reads show each: the index of the table was
/// read, and a block that the index names, in which the row stands.
pub fn unopened_rows()
    ensures walks { UnopenedWalksBring }
{}

/// Of the rows that an iterator over a run of stored tables hands out, which wasn't opened. Its reads show each: the index of a table
/// that can hold a key of the range was read, and a block that the index names, in which the row stands.
pub fn unopened_run_rows()
    ensures runs { UnopenedRunsBring }
{}
