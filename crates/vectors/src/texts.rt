// Texts of jobs, each at an edge of a rule.
#[cfg(test)]
mod tests {
    use crate::books::{CHAIR, PENROSE};
    use faults::TextFault;
    use jobs::reading::read;
    use refusals::Fault;
    use std::alloc::{AllocError, Global};
    use std::process::Abort;
    use std::test::Fail;

    // Each row: the refusal's number and place, how many lines of the chair's text are kept, and the bytes after them,
    // with / for a line feed.
    const REFUSED: [(u8, usize, usize, &str); 112] = [
        (2, 1, 0, ""),
        (1, 1, 0, "/"),
        (1, 1, 0, "R 4"),
        (1, 1, 0, "R 4\r/"),
        (1, 1, 0, "r 4/"),
        (1, 1, 0, " R 4/"),
        (1, 1, 0, "R  4/"),
        (1, 1, 0, "R 4 /"),
        (1, 1, 0, "R\t4/"),
        (1, 1, 0, "R4/"),
        (1, 1, 0, "R +4/"),
        (1, 1, 0, "R 04/"),
        (1, 1, 0, "X 4/"),
        (1, 1, 0, "4/"),
        (1, 2, 1, "I -0 0/"),
        (1, 2, 1, "I - 0/"),
        (1, 2, 1, "I 2 /"),
        (1, 2, 1, "I 2 -/"),
        (1, 2, 1, "I 2,0/"),
        (1, 2, 1, "I 2 0a/"),
        (1, 2, 1, "I --2 0/"),
        (1, 2, 1, "I 12345678 0/"),
        (3, 2, 1, "I 1234567 0/"),
        (3, 2, 1, "I -1234567 0/"),
        (1, 2, 1, "R 04/"),
        (1, 2, 1, "P 99"),
        (1, 12, 11, "/"),
        (1, 12, 11, "P 0 0 0 0 0"),
        (2, 1, 0, "I 2 0/"),
        (2, 1, 0, "P 99/"),
        (2, 2, 1, "R 4/"),
        (2, 2, 1, "L 0 1 0/"),
        (2, 3, 2, "I 2 0/"),
        (2, 3, 2, "S 0 1/"),
        (2, 4, 3, "T 0 1 0 0 1 1 0 1 2/"),
        (2, 5, 4, "S 0 1/"),
        (2, 5, 4, "L 0 1 0/"),
        (2, 5, 4, "C 0 0 0 0 0/"),
        (2, 5, 4, "D 1/"),
        (2, 6, 5, "T 0 1 0 0 1 1 0 1 2/"),
        (2, 6, 5, "D 1/"),
        (2, 10, 9, "P 0 0 0 0 0/"),
        (2, 10, 9, "S 0 1/"),
        (2, 11, 10, "D 1/"),
        (2, 11, 10, "C 0 0 0 0 0/"),
        (2, 11, 10, "T 0 1 0 0 1 1 0 1 2/"),
        (2, 12, 11, "D 1/"),
        (2, 12, 11, "R 4/"),
        (
            2,
            11,
            2,
            "L 0 1 0/L 0 1 0/L 0 1 0/L 0 1 0/L 0 1 0/L 0 1 0/L 0 1 0/L 0 1 0/L 9/",
        ),
        (
            2,
            22,
            5,
            "C 0 0 0 0 0/C 0 0 0 0 0/C 0 0 0 0 0/C 0 0 0 0 0/C 0 0 0 0 0/C 0 0 0 0 0/C 0 0 0 0 0/C 0 0 0 0 0/C 0 0 0 0 0/C 0 0 0 0 0/C 0 0 0 0 0/C 0 0 0 0 0/C 0 0 0 0 0/C 0 0 0 0 0/C 0 0 0 0 0/C 0 0 0 0 0/C/",
        ),
        (
            2,
            27,
            10,
            "P 0 0 0 0 0/P 0 0 0 0 0/P 0 0 0 0 0/P 0 0 0 0 0/P 0 0 0 0 0/P 0 0 0 0 0/P 0 0 0 0 0/P 0 0 0 0 0/P 0 0 0 0 0/P 0 0 0 0 0/P 0 0 0 0 0/P 0 0 0 0 0/P 0 0 0 0 0/P 0 0 0 0 0/P 0 0 0 0 0/P 0 0 0 0 0/P 7/",
        ),
        (
            2,
            21,
            4,
            "T 0 1 0 0 1 1 0 1 2/C 0 0 0 0 0/T 0 1 0 0 1 1 0 1 2/C 0 0 0 0 0/T 0 1 0 0 1 1 0 1 2/C 0 0 0 0 0/T 0 1 0 0 1 1 0 1 2/C 0 0 0 0 0/T 0 1 0 0 1 1 0 1 2/C 0 0 0 0 0/T 0 1 0 0 1 1 0 1 2/C 0 0 0 0 0/T 0 1 0 0 1 1 0 1 2/C 0 0 0 0 0/T 0 1 0 0 1 1 0 1 2/C 0 0 0 0 0/T 0 1 0 0 1 1 0 1 2/",
        ),
        (2, 2, 1, ""),
        (2, 3, 2, ""),
        (2, 4, 3, ""),
        (2, 5, 4, ""),
        (2, 6, 5, ""),
        (2, 10, 9, ""),
        (2, 11, 10, ""),
        (3, 1, 0, "R/"),
        (3, 1, 0, "R 5/"),
        (3, 1, 0, "R 8/"),
        (3, 1, 0, "R 4 2/"),
        (3, 1, 0, "R -4/"),
        (3, 1, 0, "R 0/"),
        (3, 2, 1, "I 2/"),
        (3, 2, 1, "I 2 0 0/"),
        (3, 2, 1, "I 33 0/"),
        (3, 2, 1, "I 0 -33/"),
        (3, 2, 1, "I/"),
        (3, 3, 2, "L 2 1 0/"),
        (3, 3, 2, "L 0 1/"),
        (3, 3, 2, "L/"),
        (3, 3, 2, "L -1 1 0/"),
        (3, 3, 2, "L 0 1 0 0/"),
        (3, 4, 3, "S 1 1/"),
        (3, 4, 3, "S -1 1/"),
        (3, 4, 3, "S 0 0/"),
        (3, 4, 3, "S 0/"),
        (3, 4, 3, "S/"),
        (3, 4, 3, "S 0 1 0 1 0 1 0 1 0 1 0 1 0 1 0 1 0 1/"),
        (3, 4, 3, "S 0 2/"),
        (3, 4, 3, "S 0 1 0/"),
        (3, 5, 4, "T 0 1 0 0 1 1/"),
        (
            3,
            5,
            4,
            "T 0 1 0 0 1 0 0 1 0 0 1 0 0 1 0 0 1 0 0 1 0 0 1 0 0 1 0 0 1 0 0 1 0 0 1 0 0 1 0/",
        ),
        (3, 5, 4, "T 0 1 0 0 1 1 0 1/"),
        (3, 5, 4, "T 0 1 0 0 1 1 0 1 4/"),
        (3, 5, 4, "T 0 0 0 0 1 1 0 1 2/"),
        (3, 5, 4, "T 1 1 0 0 1 1 0 1 2/"),
        (3, 5, 4, "T 0 1 0 0 1 1 0 1 -1/"),
        (3, 6, 5, "C 0 4 0 0 0/"),
        (3, 6, 5, "C 0 0 2 0 0/"),
        (3, 6, 5, "C -1 0 0 0 0/"),
        (3, 6, 5, "C 0 0 0 0/"),
        (3, 6, 5, "C 0 0 0 0 0 0/"),
        (3, 6, 5, "C 0 0 0 33 0/"),
        (3, 6, 5, "C/"),
        (3, 10, 9, "D 13/"),
        (3, 10, 9, "D -1/"),
        (3, 10, 9, "D/"),
        (3, 10, 9, "D 1 1/"),
        (3, 11, 10, "P 1 0 0 0 0/"),
        (3, 11, 10, "P 0 0 0 0 -33/"),
        (3, 11, 10, "P 0 4 0 0 0/"),
        (3, 11, 10, "P 0 0 0 0/"),
        (3, 6, 5, "C 1 0 0 0 0/D 1/P 0 0 0 0 0/"),
        (
            3,
            7,
            5,
            "C 0 0 0 0 0/C 9999999 0 0 0 0/C 1 0 0 0 0/D 1/P 0 0 0 0 0/",
        ),
        (
            3,
            8,
            5,
            "C 0 0 0 0 0/T 0 1 0 0 1 1 0 1 2/C 2 0 0 0 0/D 1/P 0 0 0 0 0/",
        ),
        (2, 7, 5, "C 1 0 0 0 0/"),
        (1, 7, 5, "C 1 0 0 0 0/D 01/"),
        (3, 7, 5, "C 1 0 0 0 0/D 13/"),
        (2, 8, 5, "C 1 0 0 0 0/D 1/"),
    ];

    // Each row: the bytes after the first five lines of the chair's text.
    const ACCEPTED: [&str; 3] = [
        "C 0 3 1 -32 32/D 0/P 0 0 0 0 0/",
        "C 0 0 0 0 0/C 0 0 0 0 0/C 0 0 0 0 0/C 0 0 0 0 0/C 0 0 0 0 0/C 0 0 0 0 0/C 0 0 0 0 0/C 0 0 0 0 0/C 0 0 0 0 0/C 0 0 0 0 0/C 0 0 0 0 0/C 0 0 0 0 0/C 0 0 0 0 0/C 0 0 0 0 0/C 0 0 0 0 0/C 0 0 0 0 0/D 12/P 0 0 0 0 0/P 0 0 0 0 0/P 0 0 0 0 0/P 0 0 0 0 0/P 0 0 0 0 0/P 0 0 0 0 0/P 0 0 0 0 0/P 0 0 0 0 0/P 0 0 0 0 0/P 0 0 0 0 0/P 0 0 0 0 0/P 0 0 0 0 0/P 0 0 0 0 0/P 0 0 0 0 0/P 0 0 0 0 0/P 0 0 0 0 0/",
        "C 0 0 0 0 0/T 0 1 0 0 1 1 0 1 2/C 1 0 0 0 0/C 0 0 1 0 0/D 1/P 1 3 1 32 -32/",
    ];

    // The first lines of the chair's text, and then the bytes of a row.
    fn text_of(heap: Global, keep: usize, own: &str) -> Result<String, AllocError> {
        let mut text = String::new(heap);
        for line in CHAIR.split_inclusive('\n').take(keep) {
            text.push_str(line)?;
        }
        text.push_str(own.replace(heap, '/', "\n")?.as_str())?;
        Ok(text)
    }

    #[test]
    fn refusals(rt: HostRuntime) -> Result<(), Fail> {
        for (number, place, keep, own) in &REFUSED {
            let text = text_of(rt.alloc(), *keep, own)?;
            let fault = read(rt.alloc(), text.as_bytes()).err();
            assert!(rt;
                fault.is_some_and(|f| f.number() == Some(*number) && f.place() == *place),
                "{keep} lines, then {own}"
            );
        }
        Ok(())
    }

    // Reads the text, writes the job into a longer buffer, and compares.
    fn comes_back(rt: &impl Abort, heap: Global, text: &[u8], note: &str) -> Result<(), Fail> {
        let job = read(heap, text)?;
        let mut buffer = [7; 4096];
        let written = job.write(&mut buffer);
        assert!(rt; written.is_ok(), "{note}");
        let length = written.unwrap_or(0);
        assert!(rt; length == text.len() && length < buffer.len(), "{note}");
        assert!(rt; &buffer[0..length] == text && buffer[length] == 7, "{note}");
        Ok(())
    }

    #[test]
    fn both_ways(rt: HostRuntime) -> Result<(), Fail> {
        comes_back(&rt, rt.alloc(), CHAIR.as_bytes(), "chair")?;
        comes_back(&rt, rt.alloc(), PENROSE.as_bytes(), "penrose")?;
        for own in &ACCEPTED {
            let text = text_of(rt.alloc(), 5, own)?;
            comes_back(&rt, rt.alloc(), text.as_bytes(), own)?;
        }
        Ok(())
    }

    // 16,384 spaces are misspelt, one more is overlong; a buffer that is too short is left alone.
    #[test]
    fn lengths(rt: HostRuntime) -> Result<(), Fail> {
        let spaces = [b' '; 16385];
        assert!(rt; read(rt.alloc(), &spaces[0..16384]).err() == Some(TextFault::Misspelt(1)));
        assert!(rt; read(rt.alloc(), &spaces).err() == Some(TextFault::Overlong));
        let job = read(rt.alloc(), CHAIR.as_bytes())?;
        let mut buffer = [7; 140];
        assert!(rt; job.write(&mut buffer[0..100]).is_err());
        assert!(rt; buffer[0] == 7);
        Ok(())
    }
}
