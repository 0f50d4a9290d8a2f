//! What the doc comments of the main calls show.
use ber_core::{BerFault, read_element, read_int, write_element};
use std::alloc::Global;
use std::test::Fail;
use tcap_cmd::{canon_text, check_text, run_command, show_text};
use tcap_component::{Component, Components, write_component};
use tcap_pdu::{
    DialoguePdu, Frame, TransId, read_dialogue, read_frame, write_dialogue, write_frame,
};

/// Whether the first element has this content, and this follows it.
fn is_read(bytes: &[u8], content: &[u8], rest: &[u8]) -> bool {
    match read_element(bytes) {
        Ok((element, after)) => element.content == content && after == rest,
        Err(_) => false,
    }
}

/// What is written for an element of one octet.
fn element_written(alloc: Global) -> Option<Vec<u8>> {
    let mut out = Vec::new(alloc);
    write_element(&mut out, &[0x04], &[0xaa]).ok()?;
    Some(out)
}

#[test]
fn examples_of_elements(rt: HostRuntime) -> Result<(), Fail> {
    assert!(rt; is_read(&[0x04, 0x01, 0xaa, 0x05], &[0xaa], &[0x05]));
    assert!(rt; matches!(read_element(&[0x04, 0x02, 0xaa]), Err(BerFault::Short)));
    assert!(rt; read_int(&[0x00, 0x80]) == Some(128) && read_int(&[0x00, 0x7f]).is_none());
    let element: &[u8] = &[0x04, 0x01, 0xaa];
    assert!(rt; element_written(rt.alloc()).as_deref() == Some(element));
    Ok(())
}

/// What is written for the Begin without a dialogue portion that these octets are.
fn begin_rewritten(alloc: Global, bytes: &[u8]) -> Option<Vec<u8>> {
    let frame = read_frame(bytes).ok()?;
    if !matches!(frame, Frame::Begin { dialogue: None, .. }) {
        return None;
    }
    write_frame(alloc, &frame).ok()
}

/// What is written for an End without portions.
fn end_written(alloc: Global) -> Option<Vec<u8>> {
    let end = Frame::End {
        dtid: TransId::of(1),
        dialogue: None,
        components: &[],
    };
    write_frame(alloc, &end).ok()
}

#[test]
fn examples_of_messages(rt: HostRuntime) -> Result<(), Fail> {
    let begin: &[u8] = &[0x62, 0x06, 0x48, 0x04, 0x00, 0x00, 0x00, 0x01];
    assert!(rt; begin_rewritten(rt.alloc(), begin).as_deref() == Some(begin));
    let end: &[u8] = &[0x64, 0x06, 0x49, 0x04, 0x00, 0x00, 0x00, 0x01];
    assert!(rt; end_written(rt.alloc()).as_deref() == Some(end));
    Ok(())
}

/// Whether a dialogue request of version 1 is read from what is written for it.
fn is_request_read_again(alloc: Global) -> Option<bool> {
    let request = DialoguePdu::Aarq {
        version1: true,
        context: &[0x04, 0x00, 0x00, 0x01, 0x00, 0x01, 0x03],
        info: &[],
    };
    let portion = write_dialogue(alloc, &request).ok()?;
    let read = read_dialogue(portion.as_slice());
    Some(matches!(read, Ok(DialoguePdu::Aarq { version1: true, .. })))
}

#[test]
fn examples_of_dialogues(rt: HostRuntime) -> Result<(), Fail> {
    assert!(rt; is_request_read_again(rt.alloc()) == Some(true));
    Ok(())
}

/// Whether a result of Invoke 5 and then a fault are read, and nothing more.
fn is_result_and_fault(bytes: &[u8]) -> bool {
    let mut components = Components::new(bytes);
    let is_result = matches!(
        components.next(),
        Some(Ok(Component::ResultLast { id: 5, body: None }))
    );
    is_result && matches!(components.next(), Some(Err(_))) && components.next().is_none()
}

/// What is written for that result.
fn result_written(alloc: Global) -> Option<Vec<u8>> {
    let result = Component::ResultLast { id: 5, body: None };
    write_component(alloc, &result).ok()
}

#[test]
fn examples_of_components(rt: HostRuntime) -> Result<(), Fail> {
    let bytes = [0xa2, 0x03, 0x02, 0x01, 0x05, 0xa5, 0x00];
    assert!(rt; is_result_and_fault(&bytes));
    assert!(rt; result_written(rt.alloc()).as_deref() == Some(&bytes[..5]));
    Ok(())
}

/// Whether `show`, `check` and `canon` tell these bytes like this.
fn is_told(alloc: Global, bytes: &[u8], shown: &[u8], rewritten: &[u8]) -> Option<bool> {
    let is_shown = show_text(alloc, bytes).ok()?.text.as_slice() == shown;
    let is_good = check_text(alloc, bytes).ok()?.good;
    let is_rewritten = canon_text(alloc, bytes).ok()?.text.as_slice() == rewritten;
    Some(is_shown && is_good && is_rewritten)
}

/// Whether the command finds a message good.
fn is_checked(alloc: Global, hex: &str) -> bool {
    let mut out = Vec::new(alloc);
    let mut err = Vec::new(alloc);
    let mut input: &[u8] = &[];
    let words = ["check", hex];
    let status = run_command(alloc, alloc, &words, &mut input, &mut out, &mut err);
    status == 0 && out.as_slice() == b"good\n".as_slice()
}

#[test]
fn examples_of_texts(rt: HostRuntime) -> Result<(), Fail> {
    let bytes = [0x62, 0x81, 0x03, 0x48, 0x01, 0x07];
    let told = is_told(rt.alloc(), &bytes, b"begin\n  otid 07\n", b"6203480107\n");
    assert!(rt; told == Some(true));
    assert!(rt; is_checked(rt.alloc(), "6203480107"));
    Ok(())
}
