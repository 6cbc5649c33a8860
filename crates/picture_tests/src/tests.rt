// What drawings look like, on small figures that can be counted by hand.
use faults::Refusal;
use limits::sizes::{PICTURE_BYTES, PICTURE_ROWS, ROW_BYTES};
use picture::draw;
use picture::drawing::{Drawing, Point};
use std::alloc::Global;
use std::process::Abort;
use std::test::Fail;

// What a picture must show: how many dots are black, and one byte, by its row and its place in the row.
#[derive(Clone, Copy)]
struct Look {
    black: u32,
    row: usize,
    place: usize,
    byte: u8,
}

// A label of this size, in tenths of a millimetre.
#[derive(Clone, Copy)]
struct Label {
    width: u16,
    length: u16,
}

const LARGEST: Label = Label {
    width: 540,
    length: 500,
};

fn at(x: u16, y: u16) -> Point {
    Point { x, y }
}

// How many dots are black.
fn count(dots: &[u8]) -> u32 {
    dots.iter().fold(0, |n, b| n.saturating_add(b.count_ones()))
}

// Draws over a buffer that is not white before, and looks.
fn shows(
    rt: &impl Abort,
    heap: Global,
    drawings: &[Drawing],
    label: Label,
    look: Look,
) -> Result<(), Fail> {
    let mut dots = vec![in heap; 0xaa; PICTURE_BYTES]?;
    draw(drawings, label.width, label.length, &mut dots)?;
    assert_eq!(rt; count(&dots), look.black);
    assert!(rt; look.row < PICTURE_ROWS && look.place < ROW_BYTES);
    let i = look.row * ROW_BYTES + look.place;
    assert!(rt; i < dots.len());
    assert_eq!(rt; dots[i], look.byte);
    Ok(())
}

#[test]
fn lines(rt: HostRuntime) -> Result<(), Fail> {
    let heap = rt.alloc();
    shows(
        &rt,
        heap,
        &[],
        LARGEST,
        Look {
            black: 0,
            row: 0,
            place: 0,
            byte: 0,
        },
    )?;
    // Tenth 0539 is column 431, the last.
    let point = [Drawing::Level {
        y: 13,
        from: 539,
        to: 539,
        thick: 1,
    }];
    shows(
        &rt,
        heap,
        &point,
        LARGEST,
        Look {
            black: 1,
            row: 10,
            place: 53,
            byte: 1,
        },
    )?;
    // A thick point: column 16, rows 8 to 10.
    let thick = [Drawing::Level {
        y: 10,
        from: 20,
        to: 20,
        thick: 3,
    }];
    shows(
        &rt,
        heap,
        &thick,
        LARGEST,
        Look {
            black: 3,
            row: 10,
            place: 2,
            byte: 128,
        },
    )?;
    // Rows 8 and 9, columns 16 to 32.
    let level = [Drawing::Level {
        y: 10,
        from: 20,
        to: 40,
        thick: 2,
    }];
    shows(
        &rt,
        heap,
        &level,
        LARGEST,
        Look {
            black: 2 * 17,
            row: 9,
            place: 4,
            byte: 128,
        },
    )?;
    // Columns 40 to 42, rows 16 to 80, sent the other way round.
    let upright = [Drawing::Upright {
        x: 50,
        from: 100,
        to: 20,
        thick: 3,
    }];
    shows(
        &rt,
        heap,
        &upright,
        LARGEST,
        Look {
            black: 3 * 65,
            row: 80,
            place: 5,
            byte: 0xe0,
        },
    )
}

#[test]
fn rectangles(rt: HostRuntime) -> Result<(), Fail> {
    let heap = rt.alloc();
    // 65 by 65 dots, of which 61 by 61 stay white; rows and columns 16 to 80.
    let frame = [Drawing::Rectangle {
        corner: at(100, 20),
        opposite: at(20, 100),
        thick: 2,
    }];
    shows(
        &rt,
        heap,
        &frame,
        LARGEST,
        Look {
            black: 65 * 65 - 61 * 61,
            row: 18,
            place: 2,
            byte: 0xc0,
        },
    )?;
    shows(
        &rt,
        heap,
        &frame,
        LARGEST,
        Look {
            black: 65 * 65 - 61 * 61,
            row: 78,
            place: 9,
            byte: 1,
        },
    )?;
    shows(
        &rt,
        heap,
        &frame,
        LARGEST,
        Look {
            black: 65 * 65 - 61 * 61,
            row: 79,
            place: 5,
            byte: 255,
        },
    )?;
    // Five by five dots: all of them are near a side.
    let full = [Drawing::Rectangle {
        corner: at(20, 20),
        opposite: at(25, 25),
        thick: 9,
    }];
    shows(
        &rt,
        heap,
        &full,
        LARGEST,
        Look {
            black: 25,
            row: 18,
            place: 2,
            byte: 0xf8,
        },
    )
}

#[test]
fn boxes(rt: HostRuntime) -> Result<(), Fail> {
    let heap = rt.alloc();
    let line = Drawing::Level {
        y: 10,
        from: 0,
        to: 19,
        thick: 1,
    };
    let half = Drawing::Invert {
        corner: at(19, 20),
        opposite: at(10, 0),
    };
    shows(
        &rt,
        heap,
        &[line, half],
        LARGEST,
        Look {
            black: 8 + 8 * 16,
            row: 8,
            place: 1,
            byte: 0,
        },
    )?;
    shows(
        &rt,
        heap,
        &[line, half],
        LARGEST,
        Look {
            black: 8 + 8 * 16,
            row: 16,
            place: 1,
            byte: 255,
        },
    )?;
    let all = Drawing::Invert {
        corner: at(0, 0),
        opposite: at(539, 499),
    };
    let hole = Drawing::Clear {
        corner: at(19, 19),
        opposite: at(10, 10),
    };
    shows(
        &rt,
        heap,
        &[all, hole],
        LARGEST,
        Look {
            black: 432 * 400 - 64,
            row: 15,
            place: 1,
            byte: 0,
        },
    )?;
    // Drawings act in order.
    shows(
        &rt,
        heap,
        &[hole, all],
        LARGEST,
        Look {
            black: 432 * 400,
            row: 15,
            place: 1,
            byte: 255,
        },
    )
}

#[test]
fn cuts(rt: HostRuntime) -> Result<(), Fail> {
    let heap = rt.alloc();
    // Nine columns and four rows are left.
    let all = Drawing::Invert {
        corner: at(0, 0),
        opposite: at(539, 499),
    };
    let small = Label {
        width: 12,
        length: 6,
    };
    shows(
        &rt,
        heap,
        &[all],
        small,
        Look {
            black: 9 * 4,
            row: 3,
            place: 1,
            byte: 128,
        },
    )?;
    // What lies past the picture's edges is not drawn.
    let low = Drawing::Level {
        y: 65535,
        from: 0,
        to: 65535,
        thick: 65535,
    };
    let corner = Drawing::Upright {
        x: 530,
        from: 65535,
        to: 490,
        thick: 65535,
    };
    let huge = Label {
        width: 65535,
        length: 65535,
    };
    shows(
        &rt,
        heap,
        &[low, corner],
        huge,
        Look {
            black: 8 * 8,
            row: 399,
            place: 53,
            byte: 255,
        },
    )
}

#[test]
fn buffers(rt: HostRuntime) -> Result<(), Fail> {
    let heap = rt.alloc();
    let mut short = vec![in heap; 0xaa; PICTURE_BYTES - 1]?;
    assert_eq!(rt; draw(&[], 540, 500, &mut short), Err(Refusal::ShortBuffer));
    assert_eq!(rt; count(&short), 4 * 21_599);
    let mut long = vec![in heap; 0xaa; PICTURE_BYTES + 3]?;
    assert_eq!(rt; draw(&[], 540, 500, &mut long), Ok(()));
    assert_eq!(rt; count(&long), 4 * 3);
    Ok(())
}
