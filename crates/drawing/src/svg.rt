use crate::escaping::push_escaped;
use std::alloc::AllocError;

// How the parts of a picture look, and the marks.
const STYLE: &str = "<defs>
<marker id=\"tip\" viewBox=\"0 0 10 10\" refX=\"9\" refY=\"5\" markerWidth=\"8\" markerHeight=\"8\" \
orient=\"auto\"><path d=\"M0 1L10 5L0 9z\" fill=\"#2166ac\"/></marker>
<path id=\"input\" d=\"M-5 -5h10v10h-10z\" fill=\"#1b7837\"/>
<circle id=\"delivery\" r=\"3\" fill=\"#2166ac\"/>
<circle id=\"timer\" r=\"5\" fill=\"#fff\" stroke=\"#222\" stroke-width=\"1.5\"/>
<path id=\"copy\" d=\"M0 0v3l-6 8m6 -8l6 8\" fill=\"none\" stroke=\"#2166ac\" stroke-width=\"2\"/>
<path id=\"loss\" d=\"M-6 -6l12 12m0 -12l-12 12\" stroke=\"#b2182b\" stroke-width=\"2.5\"/>
<path id=\"crash\" d=\"M-9 0h18\" stroke=\"#b2182b\" stroke-width=\"2.5\"/>
<path id=\"reboot\" d=\"M-9 0h18\" stroke=\"#1b7837\" stroke-width=\"2.5\"/>
</defs>
<style>
text{paint-order:stroke;stroke:#fff;stroke-width:4px;stroke-linejoin:round;fill:#222}
.title{font-size:13px;font-weight:bold}
.node{font-weight:bold;text-anchor:middle}
.number{fill:#999;text-anchor:end}
.ends{text-anchor:end}
.heard{fill:#2166ac}
.asked{fill:#1b7837}
.told{fill:#b35806}
.life{stroke:#888}
.row{stroke:#f0f0f0}
.down{fill:#ddd;stroke:#999}
.leads{fill:#f6c344}
.sent{stroke:#2166ac;fill:none;marker-end:url(#tip)}
.gone{stroke:#2166ac;fill:none;stroke-dasharray:4 3}
.flies{stroke:#92c5de;stroke-dasharray:1 3}
.packet{fill:#4393c3;font-size:9px;text-anchor:middle}
.key{fill:#666}
</style>
<rect width=\"100%\" height=\"100%\" fill=\"#fff\"/>
";

/// Adds a piece of the picture's own.
pub(crate) fn push(out: &mut Vec<u8>, piece: &str) -> Result<(), AllocError> {
    out.extend_from_slice(piece.as_bytes())
}

/// Adds a number.
pub(crate) fn push_number(out: &mut Vec<u8>, number: u64) -> Result<(), AllocError> {
    let alloc = *out.allocator();
    out.extend_from_slice(number.to_string(alloc)?.as_bytes())
}

// Adds the beginning of an element of this name, with these attributes.
fn open(out: &mut Vec<u8>, name: &str, attributes: &[(&str, u32)]) -> Result<(), AllocError> {
    push(out, "<")?;
    push(out, name)?;
    for (attribute, value) in attributes {
        push(out, " ")?;
        push(out, attribute)?;
        push(out, "=\"")?;
        push_number(out, u64::from(*value))?;
        push(out, "\"")?;
    }
    Ok(())
}

// Adds an element that shows this text where a reader points at what it stands in.
fn push_title(out: &mut Vec<u8>, text: &[u8]) -> Result<(), AllocError> {
    push(out, "<title>")?;
    push_escaped(out, text)?;
    push(out, "</title>")
}

/// Adds the head of a picture of this title, width and height.
pub(crate) fn push_head(
    out: &mut Vec<u8>,
    title: &[u8],
    width: u32,
    height: u32,
) -> Result<(), AllocError> {
    open(
        out,
        "svg xmlns=\"http://www.w3.org/2000/svg\" font-family=\"DejaVu Sans Mono, Menlo, Consolas, monospace\" font-size=\"11\"",
        &[("width", width), ("height", height)],
    )?;
    push(out, " viewBox=\"0 0 ")?;
    push_place(out, (width, height))?;
    push(out, "\">\n")?;
    push_title(out, title)?;
    push(out, "\n")?;
    push(out, STYLE)
}

// Adds a place, or a width and a height.
fn push_place(out: &mut Vec<u8>, place: (u32, u32)) -> Result<(), AllocError> {
    push_number(out, u64::from(place.0))?;
    push(out, " ")?;
    push_number(out, u64::from(place.1))
}

/// Adds a curve of this look from a place to another, which is drawn towards a third.
pub(crate) fn push_curve(
    out: &mut Vec<u8>,
    look: &str,
    from: (u32, u32),
    towards: (u32, u32),
    to: (u32, u32),
) -> Result<(), AllocError> {
    open(out, look, &[])?;
    push(out, " d=\"M")?;
    push_place(out, from)?;
    push(out, "Q")?;
    push_place(out, towards)?;
    push(out, " ")?;
    push_place(out, to)?;
    push(out, "\"/>\n")
}

/// Adds an element of this name, with these attributes and nothing within.
pub(crate) fn push_shape(
    out: &mut Vec<u8>,
    name: &str,
    attributes: &[(&str, u32)],
) -> Result<(), AllocError> {
    open(out, name, attributes)?;
    push(out, "/>\n")
}

/// Adds a text of this look at a place, and dots in place of what comes after so many characters, which a reader sees who points at it.
pub(crate) fn push_text(
    out: &mut Vec<u8>,
    look: &str,
    place: (u32, u32),
    text: &[u8],
    most: u32,
) -> Result<(), AllocError> {
    open(out, look, &[("x", place.0), ("y", place.1)])?;
    push(out, ">")?;
    let most = most as usize;
    if text.len() > most {
        push_escaped(out, &text[..most.saturating_sub(2)])?;
        push(out, "..")?;
        push_title(out, text)?;
    } else {
        push_escaped(out, text)?;
    }
    push(out, "</text>\n")
}
