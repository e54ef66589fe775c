// Both tests of containment, the arithmetic one and the plain one, on pairs of sets at the edges.
use sets::Mask;

// One line for a pair: whether s lies within t by arithmetic on the whole set, and attribute by attribute.
fn within_line(rt: &impl Print, s: u32, t: u32) {
    console::word(rt, b"within ");
    console::number(rt, s);
    console::put(rt, b' ');
    console::number(rt, t);
    console::put(rt, b' ');
    console::flag(rt, s.within(t));
    console::flag(rt, sets::within_each(s, t));
    console::put(rt, b'\n');
}

// Empty and full sets, one attribute more or less, the highest attribute.
pub fn containment(rt: &impl Print) {
    within_line(rt, 0, 0);
    within_line(rt, 0, 0xffff_ffff);
    within_line(rt, 0xffff_ffff, 0);
    within_line(rt, 0xffff_ffff, 0xffff_ffff);
    within_line(rt, 0xffff_fffe, 0xffff_ffff);
    within_line(rt, 0xffff_ffff, 0xffff_fffe);
    within_line(rt, 0x7fff_ffff, 0xffff_ffff);
    within_line(rt, 0xffff_ffff, 0x7fff_ffff);
    within_line(rt, 31, 63);
    within_line(rt, 63, 31);
    within_line(rt, 0x8000_0000, 0x8000_0000);
    within_line(rt, 0x8000_0000, 0);
    within_line(rt, 0x8000_0000, 0x7fff_ffff);
    within_line(rt, 1, 0x8000_0001);
    within_line(rt, 0x8000_0001, 1);
}
