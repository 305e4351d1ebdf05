// The rule that a report from 10 to 15 says is broken, by the kind of the record: a line for each kind, from 0 on.
#![tactic(auto)]

use kindrows::{STRUCT, UNION};
use lines::Out;
use rows::{flag_of, kind_of};
use texts::line;

// Report 10, of the words of a head.
fn put_head_rule(out: &mut Out, kind: u32) {
    let rules = b"\n\
        kind_flag, vlen and spare bits are 0; the size is 1, 2, 4, 8 or 16\n\
        kind_flag, vlen and spare bits are 0\n\
        kind_flag, vlen and spare bits are 0, and so is the third word\n\
        the spare bits are 0\n\
        the spare bits are 0\n\
        the spare bits are 0; the size is 1, 2, 4 or 8\n\
        vlen, spare bits and the third word are 0\n\
        kind_flag, vlen and spare bits are 0\n\
        kind_flag, vlen and spare bits are 0\n\
        kind_flag, vlen and spare bits are 0\n\
        kind_flag, vlen and spare bits are 0\n\
        kind_flag and spare bits are 0; the linkage is 0 (static) or 1 (global)\n\
        kind_flag and spare bits are 0\n\
        kind_flag, vlen and spare bits are 0\n\
        kind_flag and spare bits are 0\n\
        kind_flag, vlen and spare bits are 0; the size is 2, 4, 8, 12 or 16\n\
        vlen and spare bits are 0\n\
        vlen and spare bits are 0\n\
        the spare bits are 0; the size is 1, 2, 4 or 8\n";
    out.put(line(rules, kind));
}

// Report 11, of names.
fn put_name_rule(out: &mut Out, kind: u32) {
    let rules = b"\n\
        every name offset is below the strings' length\n\
        it has no name (offset 0)\n\
        it has no name (offset 0)\n\
        its name and each member's is offset 0 or an identifier (1 to 127 letters, digits and underscores, no digit first)\n\
        its name and each member's is offset 0 or an identifier (1 to 127 letters, digits and underscores, no digit first)\n\
        each value's name is an identifier (1 to 127 letters, digits and underscores, no digit first); its own too, or offset 0\n\
        its name is an identifier (1 to 127 letters, digits and underscores, no digit first)\n\
        its name is an identifier (1 to 127 letters, digits and underscores, no digit first)\n\
        it has no name (offset 0)\n\
        it has no name (offset 0)\n\
        it has no name (offset 0)\n\
        its name is an identifier (1 to 127 letters, digits and underscores, no digit first)\n\
        it has no name (offset 0), and each parameter's is offset 0 or an identifier (1 to 127 letters, digits and underscores, no digit first)\n\
        its name is an identifier (1 to 127 letters, digits and underscores, no digit first)\n\
        its name has 1 to 127 bytes, each from 33 to 126\n\
        every name offset is below the strings' length\n\
        its name is not empty\n\
        its name is not empty\n\
        each value's name is an identifier (1 to 127 letters, digits and underscores, no digit first); its own too, or offset 0\n";
    out.put(line(rules, kind));
}

// Report 12, of the words behind a head.
fn put_tail_rule(out: &mut Out, kind: u32) {
    let rules = b"\n\
        the encoding is 0, 1, 2 or 4, the width at least 1, offset + width at most 8 times the size; spare bits are 0\n\
        \n\
        \n\
        \n\
        \n\
        \n\
        \n\
        \n\
        \n\
        \n\
        \n\
        \n\
        a parameter of type 0 is the last and has no name (offset 0)\n\
        the linkage is 0, 1 or 2\n";
    out.put(line(rules, kind));
}

// Report 13, of references.
fn put_reference_rule(out: &mut Out, kind: u32) {
    let rules = b"\n\
        \n\
        its type is void or of any kind but FUNC, VAR, DATASEC and DECL_TAG\n\
        its element is of any kind but FUNC, VAR, DATASEC and DECL_TAG, and not void; its index is an INT itself\n\
        each member is of any kind but FUNC, VAR, DATASEC and DECL_TAG, and not void\n\
        each member is of any kind but FUNC, VAR, DATASEC and DECL_TAG, and not void\n\
        \n\
        \n\
        its type is void or of any kind but FUNC, VAR, DATASEC and DECL_TAG\n\
        its type is void or of any kind but FUNC, VAR, DATASEC and DECL_TAG\n\
        its type is void or of any kind but FUNC, VAR, DATASEC and DECL_TAG\n\
        its type is void or of any kind but FUNC, VAR, DATASEC and DECL_TAG\n\
        its type is a FUNC_PROTO\n\
        its return type is void or of any kind but FUNC, VAR, DATASEC and DECL_TAG; each parameter is of such a kind\n\
        its type is of any kind but FUNC, VAR, DATASEC and DECL_TAG, and not void\n\
        each entry's type is a VAR\n\
        \n\
        its type is a STRUCT, UNION, FUNC, VAR or TYPEDEF\n\
        its type is void or of any kind but FUNC, VAR, DATASEC and DECL_TAG\n";
    out.put(line(rules, kind));
}

// Report 14, of walks without end.
fn put_walk_rule(out: &mut Out, kind: u32) {
    let rules = b"\n\
        \n\
        a chain of pointers, typedefs, qualifiers and type tags comes to an end\n\
        what is held by value comes to an end: it leads to no type that holds itself\n\
        what is held by value comes to an end: it leads to no type that holds itself\n\
        what is held by value comes to an end: it leads to no type that holds itself\n\
        \n\
        \n\
        what is held by value comes to an end, and so does a chain of pointers, typedefs, qualifiers and type tags\n\
        what is held by value comes to an end, and so does a chain of pointers, typedefs, qualifiers and type tags\n\
        what is held by value comes to an end, and so does a chain of pointers, typedefs, qualifiers and type tags\n\
        what is held by value comes to an end, and so does a chain of pointers, typedefs, qualifiers and type tags\n\
        \n\
        \n\
        what is held by value comes to an end: it leads to no type that holds itself\n\
        \n\
        \n\
        \n\
        what is held by value comes to an end, and so does a chain of pointers, typedefs, qualifiers and type tags\n";
    out.put(line(rules, kind));
}

// Report 15, of the layout. Behind the kinds stand a struct and a union whose members have a field width.
fn put_layout_rule(out: &mut Out, kind: u32) {
    let rules = b"\n\
        \n\
        \n\
        its element has a size; its index has offset 0 and width 8, 16, 32, 64 or 128\n\
        each member has a size, begins at no lower bit than the one before, at a whole byte unless its base is an INT, and ends inside the struct\n\
        each member has a size, begins at bit 0 and ends inside the union\n\
        \n\
        \n\
        \n\
        \n\
        \n\
        \n\
        its prototype names every parameter but a last one of type 0\n\
        \n\
        its type has a size, of at most 4294967295\n\
        each entry is at least as long as its variable; unless the section's size is 0, it begins where the one before ends or later, and ends inside\n\
        \n\
        its component is 4294967295 (none), or below the number of members or parameters; on a VAR or TYPEDEF it is none\n\
        \n\
        \n\
        each member has a size, begins at no lower bit than the one before and ends inside the struct; with a field width its base is an INT, ENUM or ENUM64 of no fewer bits, without one it begins at a whole byte; an INT has offset 0 and width 8, 16, 32, 64 or 128\n\
        each member has a size, begins at bit 0 and ends inside the union; with a field width its base is an INT, ENUM or ENUM64 of no fewer bits, without one it begins at a whole byte; an INT has offset 0 and width 8, 16, 32, 64 or 128\n";
    out.put(line(rules, kind));
}

// Which line of the layout's rules: one of its own for members with a field width.
fn layout_line(info: u32) -> u32 {
    if flag_of(info) == 0 {
        return kind_of(info);
    }
    match kind_of(info) {
        STRUCT => 20,
        UNION => 21,
        kind => kind,
    }
}

fn put_rule_of(out: &mut Out, number: u32, info: u32) {
    let kind = kind_of(info);
    match number {
        10 => put_head_rule(out, kind),
        11 => put_name_rule(out, kind),
        12 => put_tail_rule(out, kind),
        13 => put_reference_rule(out, kind),
        14 => put_walk_rule(out, kind),
        _ => put_layout_rule(out, layout_line(info)),
    }
}

// The line of the rule.
pub fn put_rule(out: &mut Out, number: u32, info: u32) {
    out.put(b"    rule: ");
    put_rule_of(out, number, info);
    out.put(b"\n");
}
