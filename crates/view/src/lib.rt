// The route view: the part of the caller's file that lists a route's segments.
#![tactic(auto)]

ghost use Rattle.std.specs.Prelude.{◌≡◌};
ghost use Rattle.file.specs.Bytes.{PartAt};
ghost use Rattle.view.specs.View.{start_in_file, shown, view_start, view_count};

// The place of a route view in its file; all zero for the empty one.
#[derive(Clone, Copy, Debug, Default, PartialEq, Eq)]
pub struct Part {
    pub start: u32,
    pub count: u32,
}

// The file is accepted and the number is 1 to R.
fn is_shown(file: &[u8], route: u16) -> bool
    ensures { result ≡ shown file.now route }
{
    judging::read(file).is_ok_and(|t| (1..=t.routes as u16).contains(&route))
}

// Where route record r starts in the file.
fn route_start(r: u16) -> u32
    ensures { result ≡ start_in_file r }
{
    let i = r.saturating_sub(1) as u32;
    512 * (3 + i / 15) + 32 * (i % 15)
}

// Where the part that lists the route's segments starts in the file and how many bytes it has; 0 and 0 where there is none to show.
#[tactic(auto, unfolding(crate::specs::View::view_start, crate::specs::View::view_count))]
pub fn view_of(file: &[u8], route: u16) -> Part
    ensures { (result.start ≡ view_start file.now route) × (result.count ≡ view_count file.now route) }
{
    if !is_shown(file, route) {
        return Part::default();
    }
    let start = route_start(route);
    Part {
        start: start + 1,
        count: octets::byte(file, start as usize) as u32,
    }
}

// The same two numbers, through references.
pub fn tell_view(file: &[u8], route: u16, start: &mut u32, count: &mut u32)
    ensures { (start.new ≡ view_start file.now route) × (count.new ≡ view_count file.now route) }
{
    let view = view_of(file, route);
    *start = view.start;
    *count = view.count;
}

// The part of the file that lists the route's segments; the empty part at its start where there is none to show.
pub fn route_view(file: &[u8], route: u16) -> &[u8]
    ensures { PartAt file.entry result (view_start file.now route) (view_count file.now route) }
{
    let view = view_of(file, route);
    let start = view.start as usize;
    &file[start..start + view.count as usize]
}
