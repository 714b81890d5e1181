//! Sheets that are refused.
use orders::order::Order;
use sheet::read::read;
use std::test::Fail;

// The fault of a sheet for which two places are handed in.
fn refused(sheet: &[u8], number: u32, line: usize, word: &[u8]) -> Result<(), Fail> {
    let mut orders = [Order::Carry; 2];
    match read(sheet, &mut orders) {
        Ok(_) => Err(Fail::new("the sheet was read")),
        Err(fault) if (fault.number(), fault.line(), fault.word()) == (number, line, word) => {
            Ok(())
        }
        Err(_) => Err(Fail::new("another fault")),
    }
}

#[test]
fn form_of_words() -> Result<(), Fail> {
    refused(b"setti", 31, 1, b"setti")?;
    refused(b"settings 6\n", 31, 1, b"6")?;
    refused(b"settings 5\n5 01 1 2 0\n", 31, 2, b"01")?;
    refused(b"settings 5\n5 -1 1 2 0\n", 31, 2, b"-1")?;
    refused(b"settings 5\n5 1 1 2 -0\n", 31, 2, b"-0")?;
    refused(b"settings 5\n5 1 1 2 +1\n", 31, 2, b"+1")?;
    refused(b"settings 5\n5 0999999999 1 2 0\n", 31, 2, b"0999999999")?;
    refused(b"settings 5\n5 1 1 2 0\r\norders 0\n", 31, 2, b"0\r")?;
    refused(b"settings 5\n5  1 2 0\n", 31, 2, b"")
}

#[test]
fn form_of_orders() -> Result<(), Fail> {
    refused(b"settings 5\n5 1 1 2 0\norders 1\nr -1\n", 31, 4, b"-1")?;
    refused(b"settings 5\n5 1 1 2 0\norders 1\nt\n", 31, 4, b"t")?;
    refused(b"settings 5\n5 1 1 2 0\norders 2\nc\ncc\n", 31, 5, b"cc")?;
    refused(b"settings 5\n5 1 1 2 0\norders 1\nw1\n", 31, 4, b"w1")
}

#[test]
fn separators() -> Result<(), Fail> {
    refused(b"settings\n5\n", 31, 1, b"settings")?;
    refused(b"settings 5\n5 1 1 2 0 \n", 31, 2, b"0")?;
    refused(b"settings 5\n5 1 1 2 0\norders 1\nc 1\n", 31, 4, b"c")?;
    refused(b"settings 5\n5 1 1 2 0\norders 1\nw\n", 31, 4, b"w")
}

#[test]
fn limits() -> Result<(), Fail> {
    refused(b"settings 5\n100000000 1 1 2 0\n", 32, 2, b"100000000")?;
    refused(b"settings 5\n5 1 1 2 -100000000\n", 32, 2, b"-100000000")?;
    refused(b"settings 5\n5 1 1 2 0\norders 4097\n", 32, 3, b"4097")
}

#[test]
fn ends() -> Result<(), Fail> {
    refused(b"", 33, 1, b"")?;
    refused(b"settings", 33, 1, b"")?;
    refused(b"settings 5\n", 33, 2, b"")?;
    refused(b"settings 5\n5 1 1 2 0\norders 2\nc\n", 33, 5, b"")?;
    refused(b"settings 5\n5 1 1 2 0\norders 1\nb 1", 33, 4, b"")
}

#[test]
fn surplus_and_places() -> Result<(), Fail> {
    refused(b"settings 5\n5 1 1 2 0\norders 1\nc\nc\n", 34, 5, b"c\n")?;
    refused(b"settings 5\n5 1 1 2 0\norders 0\n\n", 34, 4, b"\n")?;
    refused(b"settings 5\n5 1 1 2 0\norders 3 ", 35, 3, b"3")?;
    refused(b"settings 5\n5 1 1 2 0\norders 3", 35, 3, b"3")
}
