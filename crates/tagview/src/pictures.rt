// The two kinds of file that a picture is written as.
use limits::sizes::ROW_BYTES;
use std::io;
use std::io::Write;

// The raster of a PBM file is just a picture: 432 dots to a row and 400 rows, black 1.
const PBM_HEAD: &[u8] = b"P4\n432 400\n";

pub(crate) fn write_pbm<W: Write>(out: &mut W, dots: &[u8]) -> io::Result<()> {
    out.write_all(PBM_HEAD)?;
    out.write_all(dots)
}

// A BMP file of one bit a dot: 22,462 bytes, of which the first 62 are these; 432 by 400 dots, 8 dots a millimetre; 0 is white and 1 black.
const BMP_HEAD: [u8; 62] = [
    b'B', b'M', 0xbe, 0x57, 0, 0, 0, 0, 0, 0, 62, 0, 0, 0, // the file: its bytes, and where the rows begin
    40, 0, 0, 0, 0xb0, 0x01, 0, 0, 0x90, 0x01, 0, 0, 1, 0, 1, 0, // width, height, one plane, one bit
    0, 0, 0, 0, 0x80, 0x57, 0, 0, 0x40, 0x1f, 0, 0, 0x40, 0x1f, 0, 0, // the rows' bytes, dots to a metre
    2, 0, 0, 0, 0, 0, 0, 0, // two colours
    255, 255, 255, 0, 0, 0, 0, 0,
];

// Rows go from the lowest to the highest, each filled up to 56 bytes.
pub(crate) fn write_bmp<W: Write>(out: &mut W, dots: &[u8]) -> io::Result<()> {
    out.write_all(&BMP_HEAD)?;
    for row in dots.chunks(ROW_BYTES).rev() {
        out.write_all(row)?;
        out.write_all(&[0, 0])?;
    }
    Ok(())
}
