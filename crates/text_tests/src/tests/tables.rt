//! That tables are read and shown where there is memory: a call that gave up for want of it would be proved too.
use std::test::Fail;
use table_files::{FileImage, read_file};
use table_forms::{TextForms, find_refusal, read_table, show_table, table_layouts};
use telecommands::commands;

#[test]
fn a_table_is_read_and_shown(rt: HostRuntime) -> Result<(), Fail> {
    let text =
        b"table CS.DefMemoryTbl\n2 state=enabled start=0x00010000 length=2500\nend\n".as_slice();
    let forms = TextForms {
        epoch: None,
        commands: commands(),
        layouts: table_layouts(),
    };
    let file = read_table(rt.alloc(), &forms, text)?;
    assert_eq!(rt; file.len(), 308);
    assert!(rt; find_refusal(&file).is_none());
    let mut shown = Vec::new(rt.alloc());
    if let Ok(FileImage::Table { kind, payload: _ }) = read_file(&file) {
        show_table(rt.alloc(), &forms, kind, &file, &mut shown)?;
    }
    assert_eq!(rt; shown.as_slice(), text);
    Ok(())
}
