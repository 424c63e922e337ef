// Document 01's last example, run: 32 components pass and 33 don't (COMPONENTS, 2), and an output that is exactly large enough passes where one place
// less is refused (ROOM, 4), with the number of places that are needed as the count. Each function is called on one record of zeros that starts a mesh:
// a triangle's three vertices in Type 4, a patch in Type 7. All widths are 8 bits.
#![tactic(auto)]

ghost use Rattle.std.specs.Prelude.{◌<◌, length};

use answers::{Answer, Told};
use pieces::Pieces;
use std::fmt::Write;

// Makes a call with so many components and prints what it answers, by the two numbers that C gets.
fn print_call<T, F: Fn(usize, &mut [T]) -> Answer>(
    rt: &impl Print,
    name: &str,
    n: usize,
    out: &mut [T],
    call: F,
)
    requires { F.IsAlwaysCallable call }
{
    let room = out.len();
    let Told { refused, count } = Told::from(call(n, out));
    let mut line = Pieces(rt);
    let _ = write!(line, "{name}: {n} components, room for {room}");
    let _ = if refused == 0 {
        write!(line, ": wrote {count}\n")
    } else {
        write!(line, ": refused {refused}, count {count}\n")
    };
}

// The three calls of a function, whose output has room for exactly what 32 components need.
fn print_calls<T, F: Fn(usize, &mut [T]) -> Answer>(
    rt: &impl Print,
    name: &str,
    out: &mut [T],
    call: F,
)
    requires callable { F.IsAlwaysCallable call }
    requires room { 0 < length out.old }
{
    let room = out.len();
    print_call(rt, name, 32, out, &call);
    print_call(rt, name, 33, out, &call);
    print_call(rt, name, 32, &mut out[..room - 1], &call);
}

fn main(rt: HostRuntime) {
    let decode = [0.0, 1.0, 0.0, 1.0];

    // Three vertices have 3 * (3 + n) numbers; with 33 components that is 108.
    let data = [0u8; 108];
    let values = [0.0f64; 108];
    print_calls(&rt, "parse_type4_mesh", &mut [0.0f64; 126], |n, out| {
        triangles::parse_type4_mesh(&data, 8, 8, 8, &decode, n, out)
    });
    print_calls(
        &rt,
        "build_type4_from_array",
        &mut [0.0f64; 126],
        |n, out| { triangles::build_type4_from_array(&values, n, out) },
    );
    print_calls(&rt, "raw_read_type4", &mut [0u32; 105], |n, out| {
        records::raw::raw_read_type4(&data, 8, 8, 8, n, out)
    });

    // A writer takes whole records only, so it is lent the numbers of three vertices with 32 components.
    let numbers = [0u32; 105];
    print_calls(&rt, "raw_write_type4", &mut [0u8; 105], |n, out| {
        packing::raw_write_type4(&numbers, 8, 8, 8, n, out)
    });

    // A patch of Type 7 has 33 + 4 * n numbers; with 33 components that is 165.
    let data = [0u8; 165];
    let values = [0.0f64; 165];
    print_calls(&rt, "parse_type7_patches", &mut [0.0f64; 192], |n, out| {
        patches::parse_type7_patches(&data, 8, 8, 8, &decode, n, out)
    });
    print_calls(
        &rt,
        "build_type7_from_array",
        &mut [0.0f64; 192],
        |n, out| { patches::build_type7_from_array(&values, n, out) },
    );
}
