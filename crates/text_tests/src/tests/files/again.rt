//! Files are read into their facts and lines.
use crate::tests::known::correction_on;
use crate::tests::verdicts::file_of;
use byte_streams::Gathered;
use cert_parser::Lines;
use cert_text::{CertLine, write_line};
use std::test::Fail;

/// A line of each form.
const LINES: &str = "line 1 gregorian 2024-02-10 dt 73871 facts 1\n\
    line 2 persian 1427-10-12 gregorian refused 4 748018 facts 1\n\
    line 3 persian 1402-12-30 gregorian refused 5 1403-1-1 facts\n\
    line 4 refused 3\n\
    line 5 undecided round 2 -5 7 fact dt - 738926\n\
    line 6 void bisect-end fact dt - -5\n";

#[test]
fn each_form_is_read_and_written_again(rt: HostRuntime) -> Result<(), Fail> {
    let alloc = rt.alloc();
    let text = format!(in alloc;
        "calendrica 1 depth 40\nfact 1 dt - 738926 73871\n{LINES}end lines 6 facts 1\n"
    )?;
    let file = file_of(alloc, &text)?;
    let facts = [(correction_on(738_926)?, 73_871)];
    assert!(rt; file.facts.entries() == facts.as_slice());
    let mut written = Gathered::new(alloc);
    for (line, number) in file.lines.entries().iter().zip(1..u32::MAX) {
        write_line(&mut written, number, line)?;
    }
    assert!(rt; written.bytes() == LINES.as_bytes());
    Ok(())
}

#[test]
fn lines_stand_in_order(rt: HostRuntime) -> Result<(), Fail> {
    let mut lines = Lines::new(rt.alloc());
    lines.push(CertLine::Refused(3))?;
    lines.push(CertLine::Refused(4))?;
    assert!(rt;
        matches!(
            lines.entries(),
            [CertLine::Refused(3), CertLine::Refused(4)]
        )
    );
    Ok(())
}
