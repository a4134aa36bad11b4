/// What is printed where the arguments make no request.
pub(crate) const HELP: &str = "usage: ./quelea explain [--json] SOURCE
       ./quelea explain --baseline FILE SOURCE

Reports the level of each operation and transaction of a source, or that it has
none, and why no lower level is enough: an execution that the next lower level
allows and in which the contract is false, as a table, in words, and as a file
for `verify`. If a transaction uses a strong operation, it reports why it may
not.

  --json           prints the same as one JSON object on a line
  --baseline FILE  prints instead a line for each operation and transaction
                   whose level is higher than in FILE, or that has no level now;
                   FILE is what `classify` or `explain` printed before

The status is 0 if each has a level and no transaction uses a strong operation,
otherwise 1. With --baseline it is 0 if there is no such line, otherwise 1.
It is 2 if a file has a fault.
";
