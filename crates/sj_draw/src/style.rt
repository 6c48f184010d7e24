//! How lines and arrows look: each kind of frame has a colour and dashes of its own, and
//! openings have one colour.

/// The looks of the classes, the tips of the arrows, a white page, a line that says what an arrow
/// means, and the beginning of the group of names.
pub(crate) const STYLE: &[u8] = b"\
<style>\
text{font:12px monospace;fill:#111}\
.name{font-weight:bold;text-anchor:middle;paint-order:stroke;stroke:#fff;stroke-width:8}\
.key{font-size:11px;fill:#555}\
path{fill:none;stroke-width:1.5}\
.party{stroke:#999;stroke-width:1}\
.message{stroke:#111;marker-end:url(#message)}\
.fin{stroke:#777;stroke-dasharray:1 4;marker-end:url(#fin)}\
.session{stroke:#b5179e;stroke-width:3;marker-end:url(#session)}\
.claim{stroke:#0b6e4f;stroke-dasharray:12 4;marker-end:url(#claim)}\
.signal{stroke:#c2410c;stroke-dasharray:12 3 2 3;marker-end:url(#signal)}\
.ack{stroke:#1d4ed8;stroke-dasharray:4 4;marker-end:url(#ack)}\
.give{stroke:#6d28d9;stroke-width:3;stroke-dasharray:16 4;marker-end:url(#give)}\
.request{stroke:#a16207;stroke-width:3;stroke-dasharray:4 4;marker-end:url(#request)}\
.open{stroke:#a16207;stroke-width:3;marker-end:url(#open)}\
.accept{stroke:#a16207;stroke-dasharray:8 4;marker-end:url(#accept)}\
.untaken{marker-end:url(#untaken)}\
</style>\n\
<marker id='message' viewBox='0 0 10 10' refX='10' refY='5' markerWidth='10' markerHeight='10' \
markerUnits='userSpaceOnUse' orient='auto'><path d='M 0 0 L 10 5 L 0 10 z' style='fill:#111'/></marker>\
<marker id='fin' viewBox='0 0 10 10' refX='10' refY='5' markerWidth='10' markerHeight='10' \
markerUnits='userSpaceOnUse' orient='auto'><path d='M 0 0 L 10 5 L 0 10 z' style='fill:#777'/></marker>\
<marker id='session' viewBox='0 0 10 10' refX='10' refY='5' markerWidth='10' markerHeight='10' \
markerUnits='userSpaceOnUse' orient='auto'><path d='M 0 0 L 10 5 L 0 10 z' style='fill:#b5179e'/></marker>\
<marker id='claim' viewBox='0 0 10 10' refX='10' refY='5' markerWidth='10' markerHeight='10' \
markerUnits='userSpaceOnUse' orient='auto'><path d='M 0 0 L 10 5 L 0 10 z' style='fill:#0b6e4f'/></marker>\
<marker id='signal' viewBox='0 0 10 10' refX='10' refY='5' markerWidth='10' markerHeight='10' \
markerUnits='userSpaceOnUse' orient='auto'><path d='M 0 0 L 10 5 L 0 10 z' style='fill:#c2410c'/></marker>\
<marker id='ack' viewBox='0 0 10 10' refX='10' refY='5' markerWidth='10' markerHeight='10' \
markerUnits='userSpaceOnUse' orient='auto'><path d='M 0 0 L 10 5 L 0 10 z' style='fill:#1d4ed8'/></marker>\
<marker id='give' viewBox='0 0 10 10' refX='10' refY='5' markerWidth='10' markerHeight='10' \
markerUnits='userSpaceOnUse' orient='auto'><path d='M 0 0 L 10 5 L 0 10 z' style='fill:#6d28d9'/></marker>\
<marker id='request' viewBox='0 0 10 10' refX='10' refY='5' markerWidth='10' markerHeight='10' \
markerUnits='userSpaceOnUse' orient='auto'><path d='M 0 0 L 10 5 L 0 10 z' style='fill:#a16207'/></marker>\
<marker id='open' viewBox='0 0 10 10' refX='10' refY='5' markerWidth='10' markerHeight='10' \
markerUnits='userSpaceOnUse' orient='auto'><path d='M 0 0 L 10 5 L 0 10 z' style='fill:#a16207'/></marker>\
<marker id='accept' viewBox='0 0 10 10' refX='10' refY='5' markerWidth='10' markerHeight='10' \
markerUnits='userSpaceOnUse' orient='auto'><path d='M 0 0 L 10 5 L 0 10 z' style='fill:#a16207'/></marker>\
\n<marker id='untaken' viewBox='0 0 10 10' refX='5' refY='5' markerWidth='10' markerHeight='10' \
markerUnits='userSpaceOnUse'><circle cx='5' cy='5' r='4' style='fill:#fff;stroke:#111'/></marker>\n\
<rect width='100%' height='100%' fill='#fff'/>\n\
<text class='key' x='14' y='16'>Arrow: from sender to taker. Above it: the end's name, what it carries. Circle: not taken.</text>\n\
<g id='names'>\n";
