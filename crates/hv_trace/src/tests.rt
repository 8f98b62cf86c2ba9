use super::*;
use std::test::*;

#[test]
fn rows_are_read(rt: HostRuntime) -> Result<(), Fail> {
    let text =
        b"s 00000000 0:00000004 1:00000005\nl 00000880\ns 00000004 0:00000008 m 40:0000abcd\nend\n";
    let rows = read_rows(rt.alloc(), 1024, 5, text)
        .ok()
        .ok_or("the text is rows")?;
    assert_eq!(rt; rows.len(), 3);
    Ok(())
}

#[test]
fn a_row_that_is_cut_is_refused_as_row(rt: HostRuntime) {
    let end = read_rows(rt.alloc(), 1024, 5, b"l 00000880\nl 0000");
    assert!(rt;
        matches!(
            end,
            Err(TraceEnd::TraceFault {
                line: 6,
                kind: TraceKind::Row
            })
        )
    );
}

#[test]
fn a_text_without_its_last_line_feed_is_refused_as_end(rt: HostRuntime) {
    let end = read_rows(rt.alloc(), 1024, 5, b"l 00000880\nend");
    assert!(rt;
        matches!(
            end,
            Err(TraceEnd::TraceFault {
                line: 6,
                kind: TraceKind::End
            })
        )
    );
}

#[test]
fn rows_are_written(rt: HostRuntime) -> Result<(), Fail> {
    let mut out = Vec::new(rt.alloc());
    let done = put_rows(&mut out, &[TraceRow::Lines { mask: 0x880 }]);
    assert!(rt; done.is_ok());
    assert_eq!(rt; out.as_slice(), b"l 00000880\n".as_slice());
    Ok(())
}
