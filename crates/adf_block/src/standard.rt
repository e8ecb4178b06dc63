//! The standard boot block: code that starts AmigaDOS.

/// The standard boot block; zeros follow. A machine enters it at byte 12, with the base of `exec.library` in A6. It finds
/// the resident module `dos.library` and returns 0 in D0 and the module's start in A0, or -1 in D0 if there is none.
///
/// Beside the bytes stands their source in the assembly language of the 68000. The image's own type and its checksum take the
/// place of bytes 0 to 7.
#[rattlefmt::skip]
pub const STANDARD_BOOT: [u8; 50] = [
    b'D', b'O', b'S', 0,    //        dc.b    'DOS',0
    0x00, 0x00, 0x00, 0x00, //        dc.l    0             ; the checksum
    0x00, 0x00, 0x03, 0x70, //        dc.l    880           ; the root of a floppy
    0x43, 0xfa, 0x00, 0x18, // start  lea     name(pc),a1
    0x4e, 0xae, 0xff, 0xa0, //        jsr     -96(a6)       ; FindResident
    0x4a, 0x80,             //        tst.l   d0
    0x66, 0x04,             //        bne.s   found
    0x53, 0x80,             //        subq.l  #1,d0         ; 0 becomes -1
    0x4e, 0x75,             //        rts
    0x22, 0x40,             // found  movea.l d0,a1
    0x20, 0x69, 0x00, 0x16, //        movea.l 22(a1),a0     ; RT_INIT
    0x70, 0x00,             //        moveq   #0,d0
    0x4e, 0x75,             //        rts
    b'd', b'o', b's', b'.', // name   dc.b    'dos.library',0
    b'l', b'i', b'b', b'r',
    b'a', b'r', b'y', 0,
];
