/// The style sheet of pictures, their arrow heads and their background.
pub const SHEET: &str = r#"<style>
text { font-family: "DejaVu Sans Mono", Menlo, Consolas, monospace; font-size: 11px; fill: #1b1f24; text-anchor: middle; }
.ground { fill: #ffffff; }
.band { opacity: 0.8; }
.band.o0 { fill: #dfe9f5; } .band.o1 { fill: #f8e7c9; } .band.o2 { fill: #dff0df; } .band.o3 { fill: #f0dfee; }
.wall { stroke: #b3261e; stroke-width: 3px; stroke-dasharray: 9 6; }
.replica { stroke: #b4bcc6; stroke-width: 4px; stroke-linecap: round; }
.replica-name, .lane-name { font-family: "DejaVu Sans", sans-serif; font-size: 12px; text-anchor: start; }
.replica-name { font-size: 13px; font-weight: bold; }
.lane-name { fill: #5a636e; }
.lane { stroke: #c3c9d1; stroke-width: 1px; }
.move { stroke: #b4bcc6; stroke-width: 1.5px; stroke-dasharray: 2 4; }
.transaction { fill: none; stroke: #5a636e; stroke-width: 1.4px; rx: 7px; }
.message, .repeated, .lost, .cut { stroke: #6b7480; stroke-width: 1.6px; marker-end: url(#message); }
.repeated { stroke-dasharray: 5 4; }
.lost { stroke: #b3261e; marker-end: url(#cross); }
.cut { stroke: #b3261e; marker-end: url(#bar); }
.sees { fill: none; stroke-width: 1.3px; opacity: 0.9; }
.unseen { fill: none; stroke: #b3261e; stroke-width: 1.3px; stroke-dasharray: 2 4; marker-end: url(#cross); }
.step { stroke: #6a3d9a; stroke-width: 1.6px; }
.joint { fill: #6a3d9a; rx: 4px; }
.asks { stroke: #b3261e; stroke-width: 1.5px; stroke-dasharray: 4 4; marker-end: url(#cross); }
.sign { fill: #ffffff; stroke: #b3261e; stroke-width: 2px; rx: 4px; }
.stroke { stroke: #b3261e; stroke-width: 2px; }
.mark { fill: #6b7480; }
.strong { stroke: #6a3d9a; stroke-width: 4px; }
.number { fill: #ffffff; font-weight: bold; }
.call, .answer, .refusal, .event, .transaction-name { paint-order: stroke; stroke: #ffffff; stroke-width: 3px; stroke-linejoin: round; }
.answer, .event, .axis, .transaction-name { fill: #5a636e; }
.transaction-name, .object, .note { text-anchor: start; }
.refusal { fill: #b3261e; }
.axis { font-size: 9px; }
.ring { fill: none; stroke: #d6006c; stroke-width: 3px; rx: 16px; }
.board { fill: #d6006c; rx: 4px; }
.variable { fill: #ffffff; font-weight: bold; }
.swatch { rx: 3px; }
.effect.o0, .swatch.o0 { fill: #0068a8; } .sees.o0 { stroke: #0068a8; marker-end: url(#head0); }
.effect.o1, .swatch.o1 { fill: #b84a00; } .sees.o1 { stroke: #b84a00; marker-end: url(#head1); }
.effect.o2, .swatch.o2 { fill: #00795a; } .sees.o2 { stroke: #00795a; marker-end: url(#head2); }
.effect.o3, .swatch.o3 { fill: #a8447f; } .sees.o3 { stroke: #a8447f; marker-end: url(#head3); }
.effect.o4, .swatch.o4 { fill: #7a6000; } .sees.o4 { stroke: #7a6000; marker-end: url(#head4); }
.effect.o5, .swatch.o5 { fill: #5b4bb5; } .sees.o5 { stroke: #5b4bb5; marker-end: url(#head5); }
.effect.o6, .swatch.o6 { fill: #2e7d8c; } .sees.o6 { stroke: #2e7d8c; marker-end: url(#head6); }
.effect.o7, .swatch.o7 { fill: #555555; } .sees.o7 { stroke: #555555; marker-end: url(#head7); }
</style>
<defs>
<marker id='message' viewBox='0 0 10 10' refX='9' refY='5' markerWidth='10' markerHeight='10' markerUnits='userSpaceOnUse' orient='auto'><path d='M0 1L10 5L0 9z' fill='#6b7480'/></marker>
<marker id='cross' viewBox='0 0 10 10' refX='5' refY='5' markerWidth='11' markerHeight='11' markerUnits='userSpaceOnUse' orient='auto'><path d='M1 1L9 9M1 9L9 1' stroke='#b3261e' stroke-width='2'/></marker>
<marker id='bar' viewBox='0 0 10 10' refX='5' refY='5' markerWidth='14' markerHeight='14' markerUnits='userSpaceOnUse' orient='auto'><path d='M5 0L5 10' stroke='#b3261e' stroke-width='2.5'/></marker>
<marker id='head0' viewBox='0 0 10 10' refX='9' refY='5' markerWidth='8' markerHeight='8' markerUnits='userSpaceOnUse' orient='auto'><path d='M0 1L10 5L0 9z' fill='#0068a8'/></marker>
<marker id='head1' viewBox='0 0 10 10' refX='9' refY='5' markerWidth='8' markerHeight='8' markerUnits='userSpaceOnUse' orient='auto'><path d='M0 1L10 5L0 9z' fill='#b84a00'/></marker>
<marker id='head2' viewBox='0 0 10 10' refX='9' refY='5' markerWidth='8' markerHeight='8' markerUnits='userSpaceOnUse' orient='auto'><path d='M0 1L10 5L0 9z' fill='#00795a'/></marker>
<marker id='head3' viewBox='0 0 10 10' refX='9' refY='5' markerWidth='8' markerHeight='8' markerUnits='userSpaceOnUse' orient='auto'><path d='M0 1L10 5L0 9z' fill='#a8447f'/></marker>
<marker id='head4' viewBox='0 0 10 10' refX='9' refY='5' markerWidth='8' markerHeight='8' markerUnits='userSpaceOnUse' orient='auto'><path d='M0 1L10 5L0 9z' fill='#7a6000'/></marker>
<marker id='head5' viewBox='0 0 10 10' refX='9' refY='5' markerWidth='8' markerHeight='8' markerUnits='userSpaceOnUse' orient='auto'><path d='M0 1L10 5L0 9z' fill='#5b4bb5'/></marker>
<marker id='head6' viewBox='0 0 10 10' refX='9' refY='5' markerWidth='8' markerHeight='8' markerUnits='userSpaceOnUse' orient='auto'><path d='M0 1L10 5L0 9z' fill='#2e7d8c'/></marker>
<marker id='head7' viewBox='0 0 10 10' refX='9' refY='5' markerWidth='8' markerHeight='8' markerUnits='userSpaceOnUse' orient='auto'><path d='M0 1L10 5L0 9z' fill='#555555'/></marker>
</defs>
<rect class="ground" width="100%" height="100%"/>
"#;
