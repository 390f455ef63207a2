use app_text::{AppText, TableText, TextFault};
use std::alloc::Global;
use std::test::Fail;

// The text of the input that a text spells.
fn input_again<A: AppText>(alloc: Global, text: &[u8]) -> Result<Vec<u8>, TextFault> {
    let input = A::read_input(alloc, text)?;
    let mut out = Vec::new(alloc);
    A::print_input(&input, &mut out)?;
    Ok(out)
}

// The text of the output that a text spells.
fn output_again<A: AppText>(alloc: Global, text: &[u8]) -> Result<Vec<u8>, TextFault> {
    let output = A::read_output(alloc, text)?;
    let mut out = Vec::new(alloc);
    A::print_output(&output, &mut out)?;
    Ok(out)
}

#[test]
fn texts_of_the_table_are_read_and_printed(rt: HostRuntime) -> Result<(), Fail> {
    let alloc = rt.alloc();
    for text in [b"acquire l bob".as_slice(), b"release l bob", b"holder l"] {
        assert!(rt; input_again::<TableText>(alloc, text)?.as_slice() == text);
    }
    for text in [b"l =bob yes".as_slice(), b"l - no"] {
        assert!(rt; output_again::<TableText>(alloc, text)?.as_slice() == text);
    }
    Ok(())
}
