// Each call once more, under its promise as `specs/promises` has it: what a call ensures is what stands there, or more.
ghost use Rattle.calls.specs.promises.read.{Keeps as read_keeps};
ghost use Rattle.calls.specs.promises.compose_row_pairs.{Keeps as compose_row_pairs_keeps};
ghost use Rattle.calls.specs.promises.makes_full.{Keeps as makes_full_keeps};
ghost use Rattle.calls.specs.promises.marks_seen.{Keeps as marks_seen_keeps};
ghost use Rattle.calls.specs.promises.compose_picture_size.{Keeps as compose_picture_size_keeps};
ghost use Rattle.calls.specs.promises.fill_table.{Keeps as fill_table_keeps};
ghost use Rattle.calls.specs.promises.table_size.{Keeps as table_size_keeps};
ghost use Rattle.calls.specs.promises.compose_job.{Keeps as compose_job_keeps};
ghost use Rattle.calls.specs.promises.is_marked.{Keeps as is_marked_keeps};
ghost use Rattle.calls.specs.promises.seven_or.{Keeps as seven_or_keeps};
ghost use Rattle.calls.specs.promises.jobs_is_complete.{Keeps as jobs_is_complete_keeps};
ghost use Rattle.calls.specs.promises.jobs_number.{Keeps as jobs_number_keeps};
ghost use Rattle.calls.specs.promises.open_picture.{Keeps as open_picture_keeps};
ghost use Rattle.calls.specs.promises.mapped_table.{Keeps as mapped_table_keeps};
ghost use Rattle.calls.specs.promises.base_only.{Keeps as base_only_keeps};
ghost use Rattle.calls.specs.promises.clear.{Keeps as clear_keeps};
ghost use Rattle.calls.specs.promises.is_full.{Keeps as is_full_keeps};
ghost use Rattle.calls.specs.promises.mark.{Keeps as mark_keeps};
ghost use Rattle.calls.specs.promises.waiting.{Keeps as waiting_keeps};
ghost use Rattle.calls.specs.promises.compose_chroma.{Keeps as compose_chroma_keeps};
ghost use Rattle.calls.specs.promises.slice_table.{Keeps as slice_table_keeps};
ghost use Rattle.calls.specs.promises.chroma_size.{Keeps as chroma_size_keeps};
ghost use Rattle.calls.specs.promises.lies.{Keeps as lies_keeps};
ghost use Rattle.calls.specs.promises.picture_picture_size.{Keeps as picture_picture_size_keeps};
ghost use Rattle.calls.specs.promises.planes_of.{Keeps as planes_of_keeps};
ghost use Rattle.calls.specs.promises.empty.{Keeps as empty_keeps};
ghost use Rattle.calls.specs.promises.coefficients_used.{Keeps as coefficients_used_keeps};
ghost use Rattle.calls.specs.promises.integer_limit.{Keeps as integer_limit_keeps};
ghost use Rattle.calls.specs.promises.method_of.{Keeps as method_of_keeps};
ghost use Rattle.calls.specs.promises.bl_depth.{Keeps as bl_depth_keeps};
ghost use Rattle.calls.specs.promises.el_depth.{Keeps as el_depth_keeps};
ghost use Rattle.calls.specs.promises.hdr_depth.{Keeps as hdr_depth_keeps};
ghost use Rattle.calls.specs.promises.fraction_bits.{Keeps as fraction_bits_keeps};
ghost use Rattle.calls.specs.promises.most_idc.{Keeps as most_idc_keeps};
ghost use Rattle.calls.specs.promises.most_order.{Keeps as most_order_keeps};
ghost use Rattle.calls.specs.promises.header_fits.{Keeps as header_fits_keeps};
ghost use Rattle.calls.specs.promises.copy_last.{Keeps as copy_last_keeps};
ghost use Rattle.calls.specs.promises.is_known.{Keeps as is_known_keeps};
ghost use Rattle.calls.specs.promises.pieces_carried.{Keeps as pieces_carried_keeps};
ghost use Rattle.calls.specs.promises.enhanced_plane.{Keeps as enhanced_plane_keeps};
ghost use Rattle.calls.specs.promises.enhanced_planes.{Keeps as enhanced_planes_keeps};
ghost use Rattle.calls.specs.promises.plain_plane.{Keeps as plain_plane_keeps};
ghost use Rattle.calls.specs.promises.plain_planes.{Keeps as plain_planes_keeps};
ghost use Rattle.calls.specs.promises.cut_numbers.{Keeps as cut_numbers_keeps};
ghost use Rattle.calls.specs.promises.finished_table.{Keeps as finished_table_keeps};
ghost use Rattle.calls.specs.promises.no_residual.{Keeps as no_residual_keeps};
ghost use Rattle.calls.specs.promises.residual_pair.{Keeps as residual_pair_keeps};
ghost use Rattle.calls.specs.promises.residual_table.{Keeps as residual_table_keeps};
ghost use Rattle.calls.specs.promises.add_up_rows.{Keeps as add_up_rows_keeps};
ghost use Rattle.calls.specs.promises.look_up_rows.{Keeps as look_up_rows_keeps};
ghost use Rattle.calls.specs.promises.number_in.{Keeps as number_in_keeps};
ghost use Rattle.calls.specs.promises.refusal_number.{Keeps as refusal_number_keeps};
ghost use Rattle.calls.specs.promises.all_polynomials.{Keeps as all_polynomials_keeps};
ghost use Rattle.calls.specs.promises.is_usable.{Keeps as is_usable_keeps};
ghost use Rattle.calls.specs.promises.passes.{Keeps as passes_keeps};
ghost use Rattle.calls.specs.promises.quantizes.{Keeps as quantizes_keeps};
ghost use Rattle.calls.specs.promises.extent_of.{Keeps as extent_of_keeps};
ghost use Rattle.calls.specs.promises.is_used.{Keeps as is_used_keeps};
ghost use Rattle.calls.specs.promises.is_wrong_length.{Keeps as is_wrong_length_keeps};
ghost use Rattle.calls.specs.promises.rules_refusal_of.{Keeps as rules_refusal_of_keeps};
ghost use Rattle.calls.specs.promises.refusal_of_pictures.{Keeps as refusal_of_pictures_keeps};
ghost use Rattle.calls.specs.promises.look_up_in_step.{Keeps as look_up_in_step_keeps};
ghost use Rattle.calls.specs.promises.four.{Keeps as four_keeps};
ghost use Rattle.calls.specs.promises.joined_six.{Keeps as joined_six_keeps};
ghost use Rattle.calls.specs.promises.look_up.{Keeps as look_up_keeps};
ghost use Rattle.calls.specs.promises.put_four.{Keeps as put_four_keeps};
ghost use Rattle.calls.specs.promises.speed_fill.{Keeps as speed_fill_keeps};
ghost use Rattle.calls.specs.promises.speed_job.{Keeps as speed_job_keeps};
ghost use Rattle.calls.specs.promises.speed_table_job.{Keeps as speed_table_job_keeps};
ghost use Rattle.calls.specs.promises.speed_write.{Keeps as speed_write_keeps};
ghost use Rattle.calls.specs.promises.clamp.{Keeps as clamp_keeps};
ghost use Rattle.calls.specs.promises.cut_at.{Keeps as cut_at_keeps};
ghost use Rattle.calls.specs.promises.piece_of.{Keeps as piece_of_keeps};
ghost use Rattle.calls.specs.promises.pivots_of.{Keeps as pivots_of_keeps};
ghost use Rattle.calls.specs.promises.cut_out.{Keeps as cut_out_keeps};
ghost use Rattle.calls.specs.promises.lower_all.{Keeps as lower_all_keeps};
ghost use Rattle.calls.specs.promises.sum_up.{Keeps as sum_up_keeps};
ghost use Rattle.calls.specs.promises.compose_by_table.{Keeps as compose_by_table_keeps};
ghost use Rattle.calls.specs.promises.compose_table_job.{Keeps as compose_table_job_keeps};
ghost use Rattle.calls.specs.promises.table_rules_refusal_of.{Keeps as table_rules_refusal_of_keeps};
ghost use Rattle.calls.specs.promises.length.{Keeps as length_keeps};
ghost use Rattle.calls.specs.promises.write.{Keeps as write_keeps};

pub fn read(bytes: &[u8]) -> block::Reading
    ensures { read_keeps bytes.now result }
{
    block::read(bytes)
}

pub fn compose_row_pairs(
    plan: plan::Plan,
    first: usize,
    count: usize,
    base: &[u16],
    enhancement: &[u16],
    marks: &[u8],
    output: &mut [u16],
) -> Result<(), refusals::Refusal>
    ensures { compose_row_pairs_keeps plan first count base.now enhancement.now marks.now output.old result output.new }
{
    compose::compose_row_pairs(plan, first, count, base, enhancement, marks, output)
}

pub fn makes_full(h: plan::Header, enhancement: usize) -> bool
    ensures { makes_full_keeps h enhancement result }
{
    compose::makes_full(h, enhancement)
}

pub fn marks_seen(h: plan::Header, marks: usize) -> usize
    ensures { marks_seen_keeps h marks result }
{
    compose::marks_seen(h, marks)
}

pub fn compose_picture_size(h: plan::Header) -> usize
    ensures { compose_picture_size_keeps h result }
{
    compose::picture_size(h)
}

pub fn fill_table(plan: plan::Plan, table: &mut [u16]) -> Result<(), refusals::Refusal>
    ensures { fill_table_keeps plan table.old result table.new }
{
    filling::fill_table(plan, table)
}

pub fn table_size(h: plan::Header) -> usize
    ensures { table_size_keeps h result }
{
    filling::table_size(h)
}

pub fn compose_job(
    plan: plan::Plan,
    open_ticket: u32,
    ticket: u32,
    first: usize,
    count: usize,
    base: &[u16],
    enhancement: &[u16],
    output: &mut [u16],
    marks: &mut [u8],
) -> jobs::Answer
    ensures { compose_job_keeps plan open_ticket ticket first count base.now enhancement.now output.old marks.old result output.new marks.new }
{
    jobs::compose_job(
        plan,
        open_ticket,
        ticket,
        first,
        count,
        base,
        enhancement,
        output,
        marks,
    )
}

pub fn is_marked(plan: plan::Plan, marks: usize) -> bool
    ensures { is_marked_keeps plan marks result }
{
    jobs::early::is_marked(plan, marks)
}

pub fn seven_or<R: Copy>(plan: plan::Plan, refusal: R, seven: R) -> R
    ensures { seven_or_keeps plan refusal seven result }
{
    jobs::early::seven_or(plan, refusal, seven)
}

pub fn jobs_is_complete(answer: jobs::Answer) -> bool
    ensures { jobs_is_complete_keeps answer result }
{
    answer.is_complete()
}

pub fn jobs_number(answer: jobs::Answer) -> u8
    ensures { jobs_number_keeps answer result }
{
    answer.number()
}

pub fn open_picture(
    plan: plan::Plan,
    ticket: u32,
    marks: &mut [u8],
) -> Result<u32, refusals::Refusal>
    ensures { open_picture_keeps plan ticket marks.old result marks.new }
{
    jobs::open_picture(plan, ticket, marks)
}

pub fn mapped_table(h: plan::Header, c: plan::Component) -> Option<[u16; 1024]>
    ensures { mapped_table_keeps h c result }
{
    mapping::mapped_table(h, c)
}

pub fn base_only(marks: &[u8]) -> usize
    ensures { base_only_keeps marks.now result }
{
    marks::base_only(marks)
}

pub fn clear(marks: &mut [u8])
    ensures { clear_keeps marks.old marks.new }
{
    marks::clear(marks)
}

pub fn is_full(marks: &[u8], k: usize) -> bool
    ensures { is_full_keeps marks.now k result }
{
    marks::is_full(marks, k)
}

pub fn mark(full: bool, from: usize, to: usize, marks: &mut [u8])
    ensures { mark_keeps full from to marks.old marks.new }
{
    marks::mark(full, from, to, marks)
}

pub fn waiting(marks: &[u8]) -> usize
    ensures { waiting_keeps marks.now result }
{
    marks::waiting(marks)
}

pub fn compose_chroma(
    plan: plan::Plan,
    first: usize,
    last: usize,
    raised1: &[u32; 1024],
    raised2: &[u32; 1024],
    cut: sums::Cut,
    marks: &[u8],
    base: &[u16],
    enhancement: &[u16],
    output: &mut [u16],
)
    ensures { compose_chroma_keeps plan first last raised1.now raised2.now cut marks.now base.now enhancement.now output.old output.new }
{
    let inputs = mmr::inputs::Inputs {
        cb_raised: raised1,
        cr_raised: raised2,
        cut: cut,
        marks: marks,
        base: base,
        enhancement: enhancement,
    };
    mmr::compose_chroma(plan, first, last, &inputs, output)
}

pub fn slice_table(plan: plan::Plan, cr: bool) -> [u16; 1024]
    ensures { slice_table_keeps plan cr result }
{
    mmr::slice::slice_table(plan, cr)
}

pub fn chroma_size(columns: u16, pairs: u16) -> usize
    ensures { chroma_size_keeps columns pairs result }
{
    picture::chroma_size(columns, pairs)
}

pub fn lies(p: picture::Plane, first: usize, last: usize, n: usize) -> bool
    ensures { lies_keeps p first last n result }
{
    p.lies(first, last, n)
}

pub fn picture_picture_size(e: picture::Extent) -> usize
    ensures { picture_picture_size_keeps e result }
{
    e.picture_size()
}

pub fn planes_of(e: picture::Extent) -> picture::Planes
    ensures { planes_of_keeps e result }
{
    e.planes()
}

pub fn empty() -> plan::Plan
    ensures { empty_keeps result }
{
    plan::empty()
}

pub fn coefficients_used(idc: u8, order: u8) -> usize
    ensures { coefficients_used_keeps idc order result }
{
    plan::methods::coefficients_used(idc, order)
}

pub fn integer_limit(idc: u8) -> u64
    ensures { integer_limit_keeps idc result }
{
    plan::methods::integer_limit(idc)
}

pub fn method_of(idc: u8) -> Option<plan::methods::Method>
    ensures { method_of_keeps idc result }
{
    plan::methods::Method::of(idc)
}

pub fn bl_depth(h: plan::ranges::FittingHeader) -> u32
    ensures { bl_depth_keeps h result }
{
    h.bl_depth()
}

pub fn el_depth(h: plan::ranges::FittingHeader) -> u32
    ensures { el_depth_keeps h result }
{
    h.el_depth()
}

pub fn hdr_depth(h: plan::ranges::FittingHeader) -> u32
    ensures { hdr_depth_keeps h result }
{
    h.hdr_depth()
}

pub fn fraction_bits(h: plan::ranges::FittingHeader) -> u32
    ensures { fraction_bits_keeps h result }
{
    h.fraction_bits()
}

pub fn most_idc(k: usize) -> u8
    ensures { most_idc_keeps k result }
{
    plan::methods::most_idc(k)
}

pub fn most_order(idc: u8) -> u8
    ensures { most_order_keeps idc result }
{
    plan::methods::most_order(idc)
}

pub fn header_fits(h: plan::Header) -> bool
    ensures { header_fits_keeps h result }
{
    plan::ranges::header_fits(h)
}

pub fn copy_last(
    version: u16,
    n: u8,
    carried: [plan::Piece; plan::limits::PIECES],
) -> [plan::Piece; plan::limits::PIECES]
    ensures { copy_last_keeps version n carried result }
{
    plan::versions::copy_last(version, n, carried)
}

pub fn is_known(version: u16) -> bool
    ensures { is_known_keeps version result }
{
    plan::versions::is_known(version)
}

pub fn pieces_carried(version: u16, n: u8) -> usize
    ensures { pieces_carried_keeps version n result }
{
    plan::versions::pieces_carried(version, n)
}

pub fn enhanced_plane(
    h: plan::Header,
    mapped: &[u16; 1024],
    q: plan::Nlq,
    cut: sums::Cut,
    p: picture::Plane,
    r: rows::Rows,
    base: &[u16],
    enhancement: &[u16],
    output: &mut [u16],
)
    ensures { enhanced_plane_keeps h mapped.now q cut p r base.now enhancement.now output.old output.new }
{
    planes::enhanced_plane(h, mapped, q, cut, p, r, base, enhancement, output)
}

pub fn enhanced_planes(
    plan: plan::Plan,
    r: rows::Rows,
    base: &[u16],
    enhancement: &[u16],
    output: &mut [u16],
)
    ensures { enhanced_planes_keeps plan r base.now enhancement.now output.old output.new }
{
    planes::enhanced_planes(plan, r, base, enhancement, output)
}

pub fn plain_plane(
    h: plan::Header,
    mapped: &[u16],
    p: picture::Plane,
    r: rows::Rows,
    marks: &[u8],
    base: &[u16],
    output: &mut [u16],
)
    ensures { plain_plane_keeps h mapped.now p r marks.now base.now output.old output.new }
{
    planes::plain_plane(h, mapped, p, r, marks, base, output)
}

pub fn plain_planes(plan: plan::Plan, r: rows::Rows, marks: &[u8], base: &[u16], output: &mut [u16])
    ensures { plain_planes_keeps plan r marks.now base.now output.old output.new }
{
    planes::plain_planes(plan, r, marks, base, output)
}

pub fn cut_numbers(h: plan::Header) -> sums::Cut
    ensures { cut_numbers_keeps h result }
{
    residual::cut_numbers(h)
}

pub fn finished_table(h: plan::Header, mapped: &[u16]) -> [u16; 1024]
    ensures { finished_table_keeps h mapped.now result }
{
    residual::finished_table(h, mapped)
}

pub fn no_residual(h: plan::Header) -> [u32; 1024]
    ensures { no_residual_keeps h result }
{
    residual::no_residual(h)
}

pub fn residual_pair(h: plan::Header, a: plan::Nlq, b: plan::Nlq) -> residual::Pair
    ensures { residual_pair_keeps h a b result }
{
    residual::residual_pair(h, a, b)
}

pub fn residual_table(h: plan::Header, q: plan::Nlq) -> [u32; 1024]
    ensures { residual_table_keeps h q result }
{
    residual::residual_table(h, q)
}

pub fn add_up_rows(
    mapped: &[u16; 1024],
    raised: &[u32; 1024],
    cut: sums::Cut,
    p: picture::Plane,
    r: rows::Rows,
    base: &[u16],
    enhancement: &[u16],
    output: &mut [u16],
)
    ensures { add_up_rows_keeps mapped.now raised.now cut p r base.now enhancement.now output.old output.new }
{
    let tables = sums::Tables {
        mapped,
        raised,
        cut,
    };
    rows::add_up_rows(tables, p, r, base, enhancement, output)
}

pub fn look_up_rows(
    table: &[u16; 1024],
    p: picture::Plane,
    r: rows::Rows,
    marks: &[u8],
    base: &[u16],
    output: &mut [u16],
)
    ensures { look_up_rows_keeps table.now p r marks.now base.now output.old output.new }
{
    rows::look_up_rows(table, p, r, marks, base, output)
}

pub fn refusal_number(refusal: refusals::Refusal) -> u8
    ensures { refusal_number_keeps refusal result }
{
    refusal.number()
}

pub fn number_in<T: Copy>(answer: Result<T, refusals::Refusal>) -> u8
    ensures { number_in_keeps answer result }
{
    refusals::number(answer)
}

pub fn all_polynomials(plan: plan::Plan) -> bool
    ensures { all_polynomials_keeps plan result }
{
    rule_seven::all_polynomials(plan)
}

pub fn is_usable(k: usize, h: plan::Header, c: plan::Component) -> bool
    ensures { is_usable_keeps k h c result }
{
    rule_seven::is_usable(k, h, c)
}

pub fn passes(plan: plan::Plan) -> bool
    ensures { passes_keeps plan result }
{
    rule_seven::passes(plan)
}

pub fn quantizes(h: plan::Header, q: plan::Nlq) -> bool
    ensures { quantizes_keeps h q result }
{
    rule_seven::quantizes(h, q)
}

pub fn extent_of(h: plan::Header) -> picture::Extent
    ensures { extent_of_keeps h result }
{
    rules::extent_of(h)
}

pub fn is_used(h: plan::Header, enhancement: usize) -> bool
    ensures { is_used_keeps h enhancement result }
{
    rules::is_used(h, enhancement)
}

pub fn is_wrong_length(h: plan::Header, base: usize, enhancement: usize, output: usize) -> bool
    ensures { is_wrong_length_keeps h base enhancement output result }
{
    rules::lengths::is_wrong_length(h, base, enhancement, output)
}

pub fn rules_refusal_of(
    plan: plan::Plan,
    first: usize,
    count: usize,
    base: &[u16],
    enhancement: &[u16],
    output: usize,
) -> Result<(), refusals::Refusal>
    ensures { rules_refusal_of_keeps plan first count base.now enhancement.now output result }
{
    let work = rules::Work {
        first,
        count,
        base,
        enhancement,
    };
    rules::refusal_of(plan, work, output)
}

pub fn refusal_of_pictures(
    h: plan::Header,
    first: usize,
    count: usize,
    base: &[u16],
    enhancement: &[u16],
    output: usize,
) -> Result<(), refusals::Refusal>
    ensures { refusal_of_pictures_keeps h first count base.now enhancement.now output result }
{
    let work = rules::Work {
        first,
        count,
        base,
        enhancement,
    };
    rules::refusal_of_pictures(h, work, output)
}

pub fn look_up_in_step(
    table: &[u16; 1024],
    a: usize,
    b: usize,
    c: usize,
    d: usize,
    n: usize,
    base: &[u16],
    output: &mut [u16],
)
    ensures { look_up_in_step_keeps table.now a b c d n base.now output.old output.new }
{
    let stretches = spans::apart::Stretches { a, b, c, d, n };
    spans::apart::look_up_in_step(table, stretches, base, output)
}

pub fn four(part: &[u16]) -> u64
    ensures { four_keeps part.now result }
{
    spans::four(part)
}

pub fn joined_six(a: &[u16], b: &[u16], c: &[u16], d: &[u16], e: &[u16], f: &[u16]) -> u16
    ensures { joined_six_keeps a.now b.now c.now d.now e.now f.now result }
{
    spans::joined_six(a, b, c, d, e, f)
}

pub fn look_up(table: &[u16; 1024], base: &[u16], output: &mut [u16])
    ensures { look_up_keeps table.now base.now output.old output.new }
{
    spans::look_up(table, base, output)
}

pub fn put_four(x: u64, part: &mut [u16])
    ensures { put_four_keeps x part.old part.new }
{
    spans::put_four(x, part)
}

pub fn speed_fill(plan: plan::Plan, table: &mut [u16]) -> u8
    ensures { speed_fill_keeps plan table.old result table.new }
{
    speed::speed_fill(plan, table)
}

pub fn speed_job(
    plan: plan::Plan,
    open_ticket: u32,
    ticket: u32,
    first: usize,
    count: usize,
    base: &[u16],
    enhancement: &[u16],
    output: &mut [u16],
    marks: &mut [u8],
) -> u8
    ensures { speed_job_keeps plan open_ticket ticket first count base.now enhancement.now output.old marks.old result output.new marks.new }
{
    speed::speed_job(
        plan,
        open_ticket,
        ticket,
        first,
        count,
        base,
        enhancement,
        output,
        marks,
    )
}

pub fn speed_table_job(
    plan: plan::Plan,
    table: &[u16],
    open_ticket: u32,
    ticket: u32,
    first: usize,
    count: usize,
    base: &[u16],
    enhancement: &[u16],
    output: &mut [u16],
    marks: &mut [u8],
) -> u8
    ensures { speed_table_job_keeps plan table.now open_ticket ticket first count base.now enhancement.now output.old marks.old result output.new marks.new }
{
    speed::speed_table_job(
        plan,
        table,
        open_ticket,
        ticket,
        first,
        count,
        base,
        enhancement,
        output,
        marks,
    )
}

pub fn speed_write(plan: plan::Plan, version: u16, out: &mut [u8]) -> u8
    ensures { speed_write_keeps plan version out.old result out.new }
{
    speed::speed_write(plan, version, out)
}

pub fn clamp(first: u16, last: u16, s: u16) -> u16
    ensures { clamp_keeps first last s result }
{
    steps::clamp(first, last, s)
}

pub fn cut_at(d: u8, v: i64) -> u16
    ensures { cut_at_keeps d v result }
{
    steps::cut_at(d, v)
}

pub fn piece_of(pivots: &[u16; plan::limits::PIVOTS], n: usize, s: u16) -> usize
    ensures { piece_of_keeps pivots.now n s result }
{
    steps::piece_of(pivots, n, s)
}

pub fn pivots_of(preds: [u16; plan::limits::PIVOTS]) -> [u16; plan::limits::PIVOTS]
    ensures { pivots_of_keeps preds result }
{
    steps::pivots_of(preds)
}

pub fn cut_out(cut: sums::Cut, v: u16, r: u32) -> u16
    ensures { cut_out_keeps cut v r result }
{
    cut.cut_out(v, r)
}

pub fn lower_all(cut: sums::Cut, sums: &[u32], output: &mut [u16])
    ensures { lower_all_keeps cut sums.now output.old output.new }
{
    cut.lower_all(sums, output)
}

pub fn sum_up(
    mapped: &[u16; 1024],
    raised: &[u32; 1024],
    base: &[u16],
    enhancement: &[u16],
    sums: &mut [u32],
)
    ensures { sum_up_keeps mapped.now raised.now base.now enhancement.now sums.old sums.new }
{
    let addends = sums::Addends { mapped, raised };
    addends.sum_up(base, enhancement, sums)
}

pub fn compose_by_table(
    plan: plan::Plan,
    table: &[u16],
    first: usize,
    count: usize,
    base: &[u16],
    enhancement: &[u16],
    marks: &[u8],
    output: &mut [u16],
) -> Result<(), refusals::Refusal>
    ensures { compose_by_table_keeps plan table.now first count base.now enhancement.now marks.now output.old result output.new }
{
    table_compose::compose_by_table(plan, table, first, count, base, enhancement, marks, output)
}

pub fn compose_table_job(
    plan: plan::Plan,
    table: &[u16],
    open_ticket: u32,
    ticket: u32,
    first: usize,
    count: usize,
    base: &[u16],
    enhancement: &[u16],
    output: &mut [u16],
    marks: &mut [u8],
) -> jobs::Answer
    ensures { compose_table_job_keeps plan table.now open_ticket ticket first count base.now enhancement.now output.old marks.old result output.new marks.new }
{
    table_jobs::compose_table_job(
        plan,
        table,
        open_ticket,
        ticket,
        first,
        count,
        base,
        enhancement,
        output,
        marks,
    )
}

pub fn table_rules_refusal_of(
    plan: plan::Plan,
    table: &[u16],
    first: usize,
    count: usize,
    base: &[u16],
    enhancement: &[u16],
    output: usize,
) -> Result<(), refusals::Refusal>
    ensures { table_rules_refusal_of_keeps plan table.now first count base.now enhancement.now output result }
{
    let work = rules::Work {
        first,
        count,
        base,
        enhancement,
    };
    table_rules::refusal_of(plan, table, work, output)
}

pub fn length(plan: plan::Plan, version: u16) -> usize
    ensures { length_keeps plan version result }
{
    writer::length(plan, version)
}

pub fn write(plan: plan::Plan, version: u16, out: &mut [u8]) -> Result<usize, refusals::Refusal>
    ensures { write_keeps plan version out.old result out.new }
{
    writer::write(plan, version, out)
}
