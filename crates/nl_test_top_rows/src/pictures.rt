// The map of a volume as a picture, by hand: the same pages as in its text, 6 points each, in rows that begin 8 points apart.
use crate::asserting::assert_none_wrong;
use crate::maps::maps;
use nl_field::Memory;
use nl_testkit_program::program::Rig;
use std::alloc::Global;
use std::fmt::Write;
use std::sync::Wait;
use std::thread::Threads;

const HEAD: &str = "\
<svg xmlns='http://www.w3.org/2000/svg' width='432' height='404'>\n\
<style>text{font:10px monospace}.n{font-size:7px;text-anchor:end}.w{stroke:#888;stroke-width:.5}\n\
.e{fill:#e8e8e8}.d{fill:#e69f00}.l{fill:#0072b2}.o{fill:#56b4e9}.x{fill:#000}.u{fill:#cc79a7}</style>\n\
<title>blocks 32 pages 32</title>\n\
<rect width='100%' height='100%' fill='#fff'/>\n\
<text x='8' y='16'>blocks 32 pages 32</text>\n\
<text x='8' y='30'>opened ";

// What the colours and the boxes say, with how many pages are erased, dead and live. No other is there, and no block is worn.
fn add_legend(text: &mut String, erased: u32, dead: u32, live: u32) -> Result<(), Memory> {
    let box_of = "width='10' height='10'/><text x='16' y='9'>";
    write!(
        text,
        "<g transform='translate(8,38)'><rect class='e' {box_of}erased {erased}\n</text></g>\n"
    )?;
    write!(
        text,
        "<g transform='translate(8,52)'><rect class='d' {box_of}dead {dead}\n</text></g>\n"
    )?;
    write!(
        text,
        "<g transform='translate(8,66)'><rect class='l' {box_of}live {live}\n</text></g>\n"
    )?;
    write!(
        text,
        "<g transform='translate(8,80)'><rect class='o' {box_of}old copy 0\n</text></g>\n"
    )?;
    write!(
        text,
        "<g transform='translate(8,94)'><rect class='x' {box_of}uncorrectable 0\n</text></g>\n"
    )?;
    write!(
        text,
        "<g transform='translate(8,108)'><rect class='u' {box_of}not judged 0\n</text></g>\n"
    )?;
    text.push_str(
        "<text x='8' y='132'>wear of a block: white 0, black 1; v virtual, p physical</text>\n",
    )?;
    Ok(())
}

// The row of a block: its segment with the letter for it, its state, and its bars.
fn add_row(
    text: &mut String,
    block: u32,
    segment: &str,
    letter: &str,
    state: &str,
    bars: &[(&str, u32, u32)],
) -> Result<(), Memory> {
    let y = block.saturating_mul(8).saturating_add(140);
    write!(
        text,
        "<g transform='translate(44,{y})'><title>block {block} {segment} {state} wear 0</title><text class='n' x='-12' y='6'>{block} {letter}</text>"
    )?;
    text.push_str("<rect class='w' x='-10' width='8' height='6' fill='rgb(255,255,255)'/>")?;
    for (class, x, width) in bars {
        write!(
            text,
            "<rect class='{class}' x='{x}' width='{width}' height='6'/>"
        )?;
    }
    text.push_str("</g>\n")?;
    Ok(())
}

const ERASED: [(&str, u32, u32); 1] = [("e", 0, 192)];

fn add_erased(
    text: &mut String,
    segment: &str,
    letter: &str,
    from: u32,
    below: u32,
) -> Result<(), Memory> {
    for block in from..below {
        add_row(text, block, segment, letter, "erased", &ERASED)?;
    }
    Ok(())
}

fn fresh(alloc: Global) -> Result<String, Memory> {
    let mut text = String::from_str(alloc, HEAD)?;
    text.push_str("0\n</text>\n")?;
    add_legend(&mut text, 1022, 0, 2)?;
    add_row(
        &mut text,
        0,
        "virtual",
        "v",
        "used",
        &[("l", 0, 12), ("e", 12, 180)],
    )?;
    add_erased(&mut text, "virtual", "v", 1, 8)?;
    add_erased(&mut text, "physical", "p", 8, 32)?;
    text.push_str("</svg>\n")?;
    Ok(text)
}

fn used(alloc: Global) -> Result<String, Memory> {
    let mut text = String::from_str(alloc, HEAD)?;
    text.push_str("4\n</text>\n")?;
    add_legend(&mut text, 1009, 6, 9)?;
    add_row(
        &mut text,
        0,
        "virtual",
        "v",
        "free",
        &[("d", 0, 12), ("e", 12, 180)],
    )?;
    let bars = [
        ("d", 0, 12),
        ("l", 12, 12),
        ("d", 24, 12),
        ("l", 36, 36),
        ("e", 72, 120),
    ];
    add_row(&mut text, 1, "virtual", "v", "used", &bars)?;
    add_erased(&mut text, "virtual", "v", 2, 8)?;
    add_row(
        &mut text,
        8,
        "physical",
        "p",
        "used",
        &[("l", 0, 6), ("e", 6, 186)],
    )?;
    add_erased(&mut text, "physical", "p", 9, 32)?;
    text.push_str("</svg>\n")?;
    Ok(text)
}

fn pictures<Rt: Threads + Wait + Sync>(rt: &Rt, alloc: Global) -> Result<String, Memory> {
    let fresh = fresh(alloc)?;
    let used = used(alloc)?;
    let mut rig = Rig::new(rt, alloc);
    let right = maps(&mut rig, "map svg", fresh.as_str(), used.as_str());
    rig.ended(right)
}

#[test]
fn the_picture_of_a_volume(rt: HostRuntime) {
    assert_none_wrong(&rt, pictures(&rt, rt.alloc()));
}
