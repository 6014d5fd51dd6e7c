//! That loads are read and shown where there is memory: a call that gave up for want of it would be proved too.
use load_texts::{asked_file, header_fields, is_load_text, read_load, show_load};
use std::test::Fail;
use table_files::{FileImage, read_file};

#[test]
fn a_load_is_read_and_shown(rt: HostRuntime) -> Result<(), Fail> {
    let text = b"load address=0x00001004\nbytes 0102030405060708\nend\n".as_slice();
    assert!(rt; is_load_text(text));
    assert!(rt; asked_file(text).is_none());
    let file = read_load(rt.alloc(), header_fields(), b"", text)?;
    assert_eq!(rt; file.len(), 88);
    let mut shown = Vec::new(rt.alloc());
    if let Ok(FileImage::Load { at: 0x1004, bytes }) = read_file(&file) {
        assert_eq!(rt; bytes, b"\x01\x02\x03\x04\x05\x06\x07\x08".as_slice());
        show_load(rt.alloc(), header_fields(), &file, &mut shown)?;
    }
    assert_eq!(rt; shown.as_slice(), text);
    Ok(())
}

#[test]
fn a_named_file_is_loaded(rt: HostRuntime) -> Result<(), Fail> {
    let text = b"load address=4100\nfile=patch.bin\nend\n".as_slice();
    let file = read_load(rt.alloc(), header_fields(), b"123456789", text)?;
    assert_eq!(rt; file.len(), 89);
    Ok(())
}
