//! A case: its name, the tool's words, what it reads, and which calls fail.
use crate::fields::{count_and_text, two_words};
use case_data::bytes_of;
use std::alloc::{AllocError, Global};

/// What a case asks for.
#[derive(Drop)]
pub struct Case {
    pub alloc: Global,
    pub name: String,
    pub words: Vec<String>,
    pub input: Vec<u8>,
    /// The readings and the writings that fail, the first one being 1.
    pub read_faults: Vec<u64>,
    pub write_faults: Vec<u64>,
    /// Whether each reading gives one byte alone.
    pub slow: bool,
}

impl Case {
    pub fn new(alloc: Global) -> Case {
        Case {
            alloc,
            name: String::new(alloc),
            words: Vec::new(alloc),
            input: Vec::new(alloc),
            read_faults: Vec::new(alloc),
            write_faults: Vec::new(alloc),
            slow: false,
        }
    }

    /// Takes a line of the case, and tells whether it reads.
    pub fn take(&mut self, line: &str) -> Result<bool, AllocError> {
        let (word, text) = two_words(line);
        match word {
            "case" => self.name.push_str(text)?,
            "words" => self.take_words(text)?,
            "|" => self.take_line(text)?,
            ":" => self.take_bytes(text)?,
            "slow" => self.slow = true,
            _ => return self.take_numbered(word, text),
        }
        Ok(true)
    }

    /// Takes a line that has a number, and tells whether it reads.
    fn take_numbered(&mut self, word: &str, text: &str) -> Result<bool, AllocError> {
        match word {
            "times" => self.take_times(text),
            "count" => self.take_count(text),
            "frame" => self.take_frame(text),
            "fail" => self.take_fault(text),
            _ => Ok(false),
        }
    }

    fn take_words(&mut self, text: &str) -> Result<(), AllocError> {
        for word in text.split(' ') {
            let word = String::from_str(self.alloc, word)?;
            self.words.push(word)?;
        }
        Ok(())
    }

    /// A line as it is.
    fn take_line(&mut self, text: &str) -> Result<(), AllocError> {
        self.input.extend_from_slice(text.as_bytes())?;
        self.input.push(b'\n')?;
        Ok(())
    }

    /// The bytes that a text stands for.
    fn take_bytes(&mut self, text: &str) -> Result<(), AllocError> {
        let bytes = bytes_of(self.alloc, text)?;
        self.input.extend_from_slice(&bytes)?;
        Ok(())
    }

    /// The bytes that a text stands for, many times.
    fn take_times(&mut self, text: &str) -> Result<bool, AllocError> {
        let Some((times, text)) = count_and_text(text) else {
            return Ok(false);
        };
        let bytes = bytes_of(self.alloc, text)?;
        for _ in 0..times {
            self.input.extend_from_slice(&bytes)?;
        }
        Ok(true)
    }

    /// The bytes that a text stands for, once for each number from one to another, which stands in the places of `%`.
    fn take_count(&mut self, text: &str) -> Result<bool, AllocError> {
        let Some((first, text)) = count_and_text(text) else {
            return Ok(false);
        };
        let Some((last, text)) = count_and_text(text) else {
            return Ok(false);
        };
        let bytes = bytes_of(self.alloc, text)?;
        for number in first..last {
            push_counted(&mut self.input, &bytes, number)?;
        }
        push_counted(&mut self.input, &bytes, last)?;
        Ok(true)
    }

    /// A frame of i3-ipc.
    fn take_frame(&mut self, text: &str) -> Result<bool, AllocError> {
        let Some((kind, text)) = count_and_text(text) else {
            return Ok(false);
        };
        let payload = bytes_of(self.alloc, text)?;
        push_frame(&mut self.input, kind, &payload)?;
        Ok(true)
    }

    /// The number of a reading or a writing that fails.
    fn take_fault(&mut self, text: &str) -> Result<bool, AllocError> {
        let (port, number) = two_words(text);
        let Ok(number) = number.parse::<u64>() else {
            return Ok(false);
        };
        match port {
            "read" => self.read_faults.push(number)?,
            "write" => self.write_faults.push(number)?,
            _ => return Ok(false),
        }
        Ok(true)
    }
}

/// Appends bytes in which the number stands in the places of `%`.
fn push_counted(input: &mut Vec<u8>, bytes: &[u8], number: u32) -> Result<(), AllocError> {
    for byte in bytes {
        if *byte == b'%' {
            push_number(input, number)?;
        } else {
            input.push(*byte)?;
        }
    }
    Ok(())
}

fn push_number(input: &mut Vec<u8>, number: u32) -> Result<(), AllocError> {
    let text = number.to_string(*input.allocator())?;
    input.extend_from_slice(text.as_bytes())?;
    Ok(())
}

/// Appends the frame of a message. The length of its payload is written modulo 2^32.
fn push_frame(input: &mut Vec<u8>, kind: u32, payload: &[u8]) -> Result<(), AllocError> {
    let length = (payload.len() % 4_294_967_296) as u32;
    input.extend_from_slice(b"i3-ipc")?;
    input.extend_from_slice(&length.to_le_bytes())?;
    input.extend_from_slice(&kind.to_le_bytes())?;
    input.extend_from_slice(payload)?;
    Ok(())
}
