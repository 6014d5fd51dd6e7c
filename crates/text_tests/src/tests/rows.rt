//! That rows are read and shown where there is memory: a call that gave up for want of it would be proved too.
use row_forms::{Field, Kind, Spelling, Width, is_row, read_row, show_row};
use std::test::Fail;

const FIELDS: &[Field] = &[
    Field::Value("address", Kind::Number(Width::U32, Spelling::Hex)),
    Field::Check,
    Field::Value("bytes", Kind::Block),
];

#[test]
fn a_row_is_read_and_shown(rt: HostRuntime) -> Result<(), Fail> {
    let fields = FIELDS;
    let mut bytes = Vec::new(rt.alloc());
    read_row(
        None,
        fields,
        1,
        b"address=0x1020 bytes=313233343536373839",
        &mut bytes,
    )?;
    assert_eq!(rt;
        bytes.as_slice(),
        b"\0\0\x10\x20\xBB\x3D123456789".as_slice()
    );
    let bytes = bytes.as_slice();
    assert!(rt; is_row(fields, bytes));
    let mut line = Vec::new(rt.alloc());
    show_row(fields, bytes, &mut line)?;
    assert_eq!(rt;
        line.as_slice(),
        b" address=0x00001020 bytes=313233343536373839".as_slice()
    );
    Ok(())
}
