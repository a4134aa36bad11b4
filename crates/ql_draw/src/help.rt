/// What is printed where the arguments ask for no picture.
pub const HELP: &str = "usage: ./quelea draw [--all] FILE [SCHEDULE] [--breach WORD..]

Writes a picture in SVG to standard output. FILE is what `run` printed, an
execution, a file of `holds`, or a block of `classify --why`.

  SCHEDULE         the schedule of the run: draws sessions at their replicas,
                   and also messages, partitions and unanswered calls
  --all            draws an arrow for everything that an effect sees, even
                   where other arrows imply it
  --breach WORD..  marks the effects that `verify` or `holds` named, as in
                   --breach fails op withdraw at 2 a=3
";
