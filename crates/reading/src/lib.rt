// Reads as many bytes as a buffer takes, however few at a time its source gives.
#![tactic(auto)]

ghost use Rattle.std.specs.Prelude.{◌<◌, IfOk, length, take};
ghost use Rattle.std.specs.Io.{ReadsAtMost};
ghost use Rattle.std.specs.Io.KnownBytes.{Consumes, IsAtEnd};

use std::io;
use std::io::Read;

// Reads until `buf` is full or the input ends; how many bytes were put at its start.
pub fn read_full<R: Read>(reader: &mut R, buf: &mut [u8]) -> io::Result<usize>
    ensures bound { ReadsAtMost result buf.new }
    ensures bytes { IfOk result (λ n. Consumes (R.remaining reader.old) (R.remaining reader.new) (take n buf.new)) }
    ensures end { IfOk result (λ n. n < length buf.new → IsAtEnd (R.remaining reader.new)) }
{
    let mut done = 0;
    while done < buf.len() {
        let read = reader.read(&mut buf[done..])?;
        if read == 0 {
            break;
        }
        done += read;
    }
    Ok(done)
}

#[cfg(test)]
mod tests {
    use super::*;
    use std::io::ErrorKind;
    use std::test::Fail;

    // Gives its bytes two at a time, and then ends or fails.
    #[derive(Drop)]
    struct Pairs<'a> {
        rest: &'a [u8],
        fails: bool,
    }

    impl<'a> Read for Pairs<'a> {
        fn read(&mut self, buf: &mut [u8]) -> io::Result<usize> {
            if self.fails && self.rest.is_empty() {
                return Err(io::Error::from(ErrorKind::ConnectionReset));
            }
            let count = self.rest.len().min(buf.len()).min(2);
            buf[..count].copy_from_slice(&self.rest[..count]);
            self.rest = &self.rest[count..];
            Ok(count)
        }
    }

    #[test]
    fn fills_what_is_lent(rt: HostRuntime) -> Result<(), Fail> {
        let mut reader = Pairs {
            rest: b"abcdefg",
            fails: false,
        };
        let mut buf = [0u8; 5];
        assert_eq!(rt; read_full(&mut reader, &mut buf)?, 5);
        assert_eq!(rt; buf, *b"abcde");
        assert_eq!(rt; read_full(&mut reader, &mut buf)?, 2);
        assert_eq!(rt; buf, *b"fgcde");
        assert_eq!(rt; read_full(&mut reader, &mut buf)?, 0);
        Ok(())
    }

    #[test]
    fn tells_a_failed_read(rt: HostRuntime) {
        let mut reader = Pairs {
            rest: b"abc",
            fails: true,
        };
        let mut buf = [0u8; 5];
        assert!(rt; read_full(&mut reader, &mut buf).is_err());
    }
}
