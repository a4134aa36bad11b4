use crate::measure;
use ql_reply::Status;
use std::{fs, io};

/// Makes the measurement of each line of a file, up to the first that isn't one.
pub(crate) fn measure_lines(rt: &HostRuntime, path: &str) -> io::Result<Status> {
    let text = fs::read_to_string(rt, path)?;
    for line in text.lines() {
        let mut words = Vec::new(rt.alloc());
        for word in line.split_whitespace() {
            words.push(String::from_str(rt.alloc(), word)?)?;
        }
        let status = measure(rt, &words)?;
        if status != Status::Done {
            return Ok(status);
        }
    }
    Ok(Status::Done)
}
