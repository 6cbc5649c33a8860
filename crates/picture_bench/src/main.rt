// What drawing costs: reads one letter for each drawing, draws them, and prints how many dots are black.
#![tactic(auto)]

use anyhow::anyhow;
use limits::sizes::{MOST_DRAWINGS, PICTURE_BYTES};
use picture::draw;
use picture::drawing::{Drawing, Point};

const CORNER: Point = Point { x: 0, y: 0 };

const OPPOSITE: Point = Point { x: 539, y: 499 };

// R a rectangle around the whole picture, B the same with every dot near a side, I all inverted, any other all cleared.
fn full(letter: u8) -> Drawing {
    match letter {
        b'R' => Drawing::Rectangle {
            corner: CORNER,
            opposite: OPPOSITE,
            thick: 9,
        },
        b'B' => Drawing::Rectangle {
            corner: CORNER,
            opposite: OPPOSITE,
            thick: 432,
        },
        b'I' => Drawing::Invert {
            corner: CORNER,
            opposite: OPPOSITE,
        },
        _ => Drawing::Clear {
            corner: CORNER,
            opposite: OPPOSITE,
        },
    }
}

fn main(rt: HostRuntime) -> anyhow::Result<()> {
    let heap = rt.alloc();
    let mut line = String::new(heap);
    rt.read_line(&mut line)?;
    let mut drawings = Vec::new(heap);
    let letters = line.as_bytes().iter().take(MOST_DRAWINGS);
    for letter in letters.filter(|letter| **letter >= b'A') {
        drawings.push(full(*letter))?;
    }
    let mut dots = vec![in heap; 0; PICTURE_BYTES]?;
    draw(&drawings, 540, 500, &mut dots).map_err(|_| anyhow!("the buffer is too short"))?;
    let black = dots
        .iter()
        .fold(0_u32, |n, b| n.saturating_add(b.count_ones()));
    println!(rt; "{black}")?;
    Ok(())
}
