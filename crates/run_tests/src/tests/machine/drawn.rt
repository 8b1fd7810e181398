//! Runs that `draw_run.py` drew from the seeds in their names, the last by `--wires`, and what is printed of them, as an independent checker
//! made it.

pub const DRAWN: &str = "\
run: drawn from 83
turns: 1026 002010000111220211121100212220200110212020
stores: reads 516 writes; reads 4 writes
trace: trace 1 512 3 2; 0 map 0 0 511 wired write; 0 map 0 511 1 fixed write; 0 load 0 0; 511 times 8192: 0 load 0 #; \
0 map 0 512 2 fixed write; 0 map 1 0 8 fixed write; 2 protect 0 511 1 none; 0 load 1 0; 0 unmap 1 0; 1 store 0 4202496 \
44; 2 evict 0 511; 1 sync 1 4; 2 load 1 32768; 2 map 1 1048575 2 fixed write; 2 store 1 32768 38; 0 protect 0 513 1 \
none; 2 map 0 511 2 fixed write; 1 sync 0 512; 2 protect 1 4 1 none; end
report: 1026 0 s0 answer 514 done; 1027 0 s1 answer 515 done; 1028 2 s0 answer 0 done; 1029 0 s1+f claim 0 511 511 for \
0 read; 1030 1 f refused 511 1 0; 1031 1 s0 answer 0 noframes 511 1 0; 1032 1 s1 answer 1 clean; 1033 1 s0 answer 2 \
clean; 1034 2 s0+f answer 1 clean; 1035 2 f refused 511 0 1; 1036 0 f got 511; 1037 2 s1 answer 2 noframes 511 0 1; \
1038 2 s1 answer 3 outofspace; 1039 0 s1+f use 0 511 0 8 8 0; 1040 0 s1 answer 516 value 0 miss 0; 1041 2 s1+f claim 1 \
0 511 for 4 write; 1042 2 s1 out 0 clean; 1043 2 s1+f give 0 511; 1044 2 s1+f use 4 511 0 8 8 0; 1045 2 s1 answer 4 \
done miss 0; 1046 0 s1+f clear 0 8; 1047 0 s1 answer 517 done; 1048 0 s0 answer 518 done; 1049 2 s0 answer 5 overlap; \
1050 2 s1 answer 6 unmapped; tiles 7 7 7 0; promotions 63; demotions 0; preemptions 0; images 0 514; frames 1 0 511; \
end

run: drawn from 104
turns: 1026 01100111011011010000001
stores: reads writes
trace: trace 1 512 2 1; 0 map 0 0 509 wired write; 0 map 0 509 3 fixed write; 0 load 0 0; 511 times 8192: 0 load 0 #; \
0 map 0 512 2 fixed write; 1 map 0 1048575 2 fixed write; 0 sync 0 512; 0 load 0 4194304; 0 store 0 4194304 28; 0 load \
0 4194304; 0 evict 0 512; 0 store 0 0 4; 0 unmap 0 0; 1 load 0 4194304; 1 store 0 4194304 22; 1 unmap 0 0; 0 load 0 \
4194304; 0 load 0 0; 1 sync 0 512; end
report: 1026 0 s0 answer 514 done; 1027 1 s0 answer 0 outofspace; 1028 1 s0+f claim 0 509 509 for 512 read; 1029 1 s0 \
out 509 clean; 1030 1 s0+f give 509 509; 1031 1 s0+f use 512 509 512 514 2 0; 1032 1 s0 answer 1 value 0 miss 0; 1033 \
1 s0 answer 2 done hit 0; 1034 0 s0 answer 515 written; 1035 1 s0+f clear 0 509; 1036 1 s0 answer 3 done; 1037 0 s0 \
answer 516 value 22 miss 0; 1038 1 s0 answer 4 clean; 1039 0 s0 answer 517 done hit 0; 1040 0 s0 answer 518 value 28 \
hit 0; 1041 0 s0+f answer 519 written; 1042 0 s0 answer 520 unmapped; 1043 0 s0 answer 521 unmapped; 1044 0 s0+f take \
512 508 512 514 2 0; 1045 0 s0 answer 522 value 28 miss 0; 1046 0 s0 answer 523 unmapped; tiles 3 0 0 0; promotions \
63; demotions 14; preemptions 0; images 3 515; frames 509 0 3; end

run: drawn from 187
turns: 1026 0001222112002222221222012211002222210111111200
stores: reads 513 514 writes 3; reads 1 2 writes 3
trace: trace 1 512 3 2; 0 map 0 0 509 wired write; 0 map 0 509 3 fixed write; 0 load 0 0; 511 times 8192: 0 load 0 #; \
0 map 0 512 2 growing read; 0 map 1 0 2 fixed write; 1 load 1 0; 1 load 0 4194304; 1 evict 0 511; 0 store 1 0 12; 1 \
sync 0 512; 1 unmap 0 512; 0 sync 1 1; 2 protect 1 0 1 none; end
report: 1026 0 s0 answer 514 done; 1027 0 s1 answer 515 done; 1028 0 s1+f claim 0 509 509 for 0 write; 1029 1 s1+f \
claim 0 510 510 for 0 read; 1030 2 s1 answer 0 done; 1031 1 s0 out 510 clean; 1032 1 s0+f give 510 510; 1033 0 s0 out \
509 clean; 1034 0 s0+f give 509 509; 1035 1 f drop 510; 1036 1 s1 answer 0 denied; 1037 1 s0+f take 512 510 512 \
1048576 2 0; 1038 1 s0 failed 512 read 1; 1039 0 f drop 509; 1040 0 s1 answer 516 denied; 1041 1 s0+f give 512 510; \
1042 0 s1 answer 517 clean; 1043 1 s0 answer 1 storefault 0 1; 1044 1 s0+f answer 2 clean; 1045 1 s0 answer 3 clean; \
1046 1 s0+f clear 512 2; 1047 1 s0 answer 4 done; tiles 5 7 7 0; promotions 63; demotions 0; preemptions 0; images 0 \
512; frames 3 0 509; end

run: drawn from 213
turns: 1023 0001011110110011000010000011001100100
stores: full
trace: trace 1 512 2 2; 0 map 0 0 511 wired write; 0 load 0 0; 510 times 8192: 0 load 0 #; 0 map 0 512 3 fixed write; \
0 map 1 0 3 wired read; 0 map 1 6 3 fixed write; 1 protect 1 0 1 read; 1 store 0 4202496 95; 0 load 1 57344; 0 load 1 \
0; 1 load 0 4194304; 1 store 1 49152 1; 1 store 0 4915200 48; end
report: 1023 0 s0 answer 512 done; 1024 0 s1 answer 513 done; 1025 0 s1 answer 514 done; 1026 1 s1 answer 0 done; 1027 \
0 s1+f take 7 511 6 9 3 0; 1028 1 s0+f claim 1 7 511 for 513 write; 1029 0 s1 answer 515 value 0 miss 0; 1030 1 s1 out \
7 clean; 1031 1 s1+f give 7 511; 1032 0 f refused 511 0 1; 1033 0 s1 answer 516 noframes 511 0 1; 1034 1 s0+f use 513 \
511 512 515 3 0; 1035 1 s0 answer 1 done miss 0; 1036 1 s0+f claim 0 513 511 for 512 read; 1037 1 s0+f unclaim 511; \
1038 1 s0 answer 2 nomemory; 1039 1 s1+f claim 0 513 511 for 6 write; 1040 1 s0+f unclaim 511; 1041 1 s1 answer 3 \
nomemory; 1042 1 s0 answer 4 unmapped; tiles 8 7 7 0; promotions 63; demotions 0; preemptions 0; images 0 513; frames \
0 0 512; end

run: drawn from 306
turns: 1025 0000212011210201200011210122102121200220000100
stores: reads 513 516 writes 1 2; reads 1 4 writes 1 2; reads 1 4 writes 1 2
trace: trace 1 512 3 3; 0 map 0 0 512 fixed write; 0 store 0 0 5; 511 times 8192: 0 load 0 #; 0 map 0 512 8 wired \
write; 0 map 0 525 1 wired write; 0 map 1 0 8 fixed write; 0 map 2 0 3 growing write; 2 store 0 4300800 76; 1 load 0 \
4300800; 1 protect 1 0 1 none; 0 load 0 4194304; 1 store 0 4915200 47; 1 store 0 4194304 45; 1 store 2 0 12; end
report: 1025 0 s0 answer 513 done; 1026 0 s0 answer 514 done; 1027 0 s1 answer 515 done; 1028 0 s2 answer 516 done; \
1029 2 s0+f claim 0 0 0 for 525 write; 1030 2 s0 failed 0 write 1; 1031 2 s0+f unclaim 0; 1032 2 s0 answer 0 \
storefault 0 1; 1033 0 s0+f claim 0 0 0 for 512 read; 1034 0 s0 failed 0 write 2; 1035 0 s0+f unclaim 0; 1036 0 s0 \
answer 517 storefault 0 2; 1037 1 s0+f claim 0 0 0 for 525 read; 1038 1 s0 out 0 written; 1039 1 s0+f give 0 0; 1040 1 \
s0+f use 525 0 525 526 1 1; 1041 1 s0 failed 525 read 3; 1042 1 s0+f give 525 0; 1043 1 s0 answer 0 storefault 0 3; \
1044 1 s1 answer 1 done; 1045 1 s0 answer 2 unmapped; 1046 1 s0+f take 512 0 512 520 8 1; 1047 1 s0 answer 3 done miss \
0; 1048 1 s2+f claim 0 1 1 for 0 write; 1049 1 s0 out 1 clean; 1050 1 s0+f give 1 1; 1051 1 s2+f use 0 1 0 1048576 3 \
0; 1052 1 s2 failed 0 read 1; 1053 1 s2+f give 0 1; 1054 1 s2 answer 4 storefault 2 1; tiles 7 7 7 0; promotions 64; \
demotions 1; preemptions 0; images 0 513; frames 1 0 511; end

run: drawn from 333
turns: 1088 00233231320213001002131
stores: full
trace: trace 1 512 4 2; 0 map 0 0 8 wired write; 62 times 8: 0 map 0 # 8 wired write; 0 map 0 504 8 fixed write; 0 \
load 0 0; 511 times 8192: 0 load 0 #; 0 map 0 512 3 wired write; 0 map 1 0 3 wired write; 0 load 0 4194304; 3 store 0 \
4194304 76; 0 load 0 4202496; 2 sync 1 1; 2 load 0 4186112; 3 load 1 0; 2 store 1 0 40; 2 map 0 1048575 2 fixed write; \
0 evict 0 513; 3 store 0 4186112 18; 2 store 1 0 90; end
report: 1088 0 s0 answer 576 regionsfull; 1089 0 s1 answer 577 done; 1090 2 s1 answer 0 clean; 1091 3 s0 answer 0 \
unmapped; 1092 3 s1+f claim 0 504 504 for 0 read; 1093 2 s0 answer 1 value 0 miss 1; 1094 3 s0 out 504 clean; 1095 3 \
s0+f give 504 504; 1096 2 s1+f claim 0 505 505 for 0 write; 1097 0 s0 answer 578 unmapped; 1098 2 s0 out 505 clean; \
1099 3 s1+f use 0 504 0 3 3 1; 1100 2 s0+f give 505 505; 1101 3 s1 answer 1 value 0 miss 0; 1102 0 s0 answer 579 \
unmapped; 1103 0 s0 answer 580 unmapped; 1104 2 f drop 505; 1105 2 s1 answer 2 done miss 0; 1106 2 s0 answer 3 \
outofspace; 1107 2 s1 answer 4 done hit 0; 1108 3 s0 answer 2 done miss 0; tiles 7 63 0 0; promotions 64; demotions 1; \
preemptions 0; images 1 516; frames 1 0 511; end

run: drawn from 347
turns: 1026 0000022201010202012001200001012222210211100011
stores: reads writes 2 3; reads writes 2 3; reads writes 2 3
trace: trace 1 512 3 3; 0 map 0 0 510 wired write; 0 map 0 510 2 growing write; 0 load 0 0; 511 times 8192: 0 load 0 \
#; 0 map 0 512 2 fixed write; 0 map 0 520 1 fixed write; 0 map 1 0 3 growing write; 0 map 1 5 2 wired read; 0 map 2 0 \
3 wired write; 2 store 0 4186112 43; 2 grow 0 520 9; 1 unmap 1 6; 0 evict 1 0; 2 store 0 4259840 43; 0 load 0 4186112; \
0 store 0 4259840 29; 2 load 0 4259840; 0 load 2 8192; 1 load 2 8192; 0 load 0 4186112; 1 store 2 8192 4; 1 map 0 520 \
2 fixed write; end
report: 1026 0 s0 answer 514 done; 1027 0 s0 answer 515 done; 1028 0 s1 answer 516 done; 1029 0 s1 answer 517 done; \
1030 0 s2 answer 518 done; 1031 2 s0 answer 0 done miss 0; 1032 2 s0 answer 1 notgrowing; 1033 2 s0+f claim 0 510 510 \
for 520 write; 1034 0 s1 answer 519 clean; 1035 1 s1+f clear 5 2; 1036 1 s1 answer 0 done; 1037 2 s0 out 510 clean; \
1038 2 s0+f give 510 510; 1039 1 s2+f claim 0 511 511 for 1 read; 1040 2 s0+f use 520 510 520 521 1 0; 1041 2 s0 \
answer 2 done miss 0; 1042 0 s0 answer 520 value 43 miss 0; 1043 0 s0 answer 521 done miss 0; 1044 0 s2+f claim 0 520 \
510 for 1 read; 1045 0 s0 out 520 written; 1046 0 s0+f give 520 510; 1047 1 s0 failed 511 write 1; 1048 1 s0+f unclaim \
511; 1049 0 s2+f use 1 510 0 3 3 1; 1050 2 s0+f claim 0 511 511 for 520 read; 1051 0 s2 answer 522 value 0 miss 0; \
1052 1 s2 answer 1 storefault 0 1; 1053 1 s2 answer 2 done miss 0; 1054 2 s0 failed 511 write 2; 1055 2 s0+f unclaim \
511; 1056 2 s0 answer 3 storefault 0 2; 1057 0 s0 answer 523 value 43 hit 0; 1058 1 s0 answer 3 overlap; tiles 8 7 7 \
0; promotions 63; demotions 0; preemptions 0; images 1 518; frames 0 0 512; end

run: drawn from 531
turns: 1026 00021211232020221131031302032010300100
stores: full
trace: trace 1 512 4 3; 0 map 0 0 511 wired write; 0 map 0 511 1 growing write; 0 load 0 0; 511 times 8192: 0 load 0 \
#; 0 map 0 512 1 fixed read; 0 map 1 0 2 wired write; 0 map 2 0 1 fixed write; 3 store 0 4915200 55; 3 store 0 4915200 \
15; 3 protect 0 512 1 read; 1 protect 1 0 1 none; 3 store 2 0 86; 1 store 1 0 82; 0 load 1 0; 3 store 2 0 54; 3 evict \
2 0; 3 sync 1 0; 0 store 0 4194304 56; 2 load 1 0; 0 load 2 0; 0 load 0 4194304; 3 store 0 4194304 40; end
report: 1026 0 s0 answer 514 done; 1027 0 s1 answer 515 done; 1028 0 s2 answer 516 done; 1029 2 s1+f claim 0 511 511 \
for 0 read; 1030 1 s1 answer 0 done; 1031 2 s0 out 511 clean; 1032 1 s1 answer 1 denied; 1033 2 s0+f give 511 511; \
1034 3 s0 answer 0 unmapped; 1035 2 f drop 511; 1036 2 s1 answer 0 denied; 1037 0 s1 answer 517 denied; 1038 3 s0 \
answer 1 unmapped; 1039 0 s0 answer 518 denied; 1040 3 s0 answer 2 done; 1041 3 s2+f take 0 511 0 1 1 0; 1042 3 s2 \
answer 3 done miss 0; 1043 0 s2 answer 519 value 86 miss 0; 1044 0 s0+f claim 2 0 511 for 512 read; 1045 3 s2 answer 4 \
done hit 0; 1046 0 s2+f unclaim 511; 1047 0 s0 answer 520 nomemory; 1048 3 s2 answer 5 nomemory; 1049 3 s1 answer 6 \
clean; 1050 3 s0 answer 7 denied; tiles 8 7 7 0; promotions 63; demotions 0; preemptions 0; images 1 514; frames 0 0 \
512; end

run: drawn from 539
turns: 1025 012202010000220122120112
stores: reads writes
trace: trace 1 512 3 1; 0 map 0 0 512 fixed write; 0 load 0 0; 511 times 8192: 0 load 0 #; 0 map 0 512 2 fixed write; \
2 store 0 4915200 55; 0 load 0 4915200; 2 sync 0 512; 2 load 0 4194304; 0 store 0 4194304 15; 0 load 0 4915200; 2 load \
0 4194304; 2 sync 0 512; 0 evict 0 512; 2 load 0 4915200; 2 store 0 4194304 38; 2 unmap 0 512; 0 load 0 4194304; 2 \
store 0 4915200 64; end
report: 1025 0 s0 answer 513 done; 1026 2 s0 answer 0 unmapped; 1027 2 s0 answer 1 clean; 1028 0 s0 answer 514 \
unmapped; 1029 2 s0+f claim 0 0 0 for 512 read; 1030 2 s0 out 0 clean; 1031 2 s0+f give 0 0; 1032 2 s0+f use 512 0 512 \
514 2 0; 1033 2 s0 answer 2 value 0 miss 0; 1034 2 s0 answer 3 value 0 hit 0; 1035 0 s0 answer 515 done miss 0; 1036 2 \
s0 answer 4 written; 1037 0 s0 answer 516 unmapped; 1038 0 s0+f answer 517 clean; 1039 0 s0+f take 512 0 512 514 2 0; \
1040 0 s0 answer 518 value 15 miss 0; 1041 2 s0 answer 5 unmapped; 1042 2 s0 answer 6 done miss 0; 1043 2 s0+f clear \
512 2; 1044 2 s0 answer 7 done; 1045 2 s0 answer 8 unmapped; tiles 7 7 7 0; promotions 64; demotions 1; preemptions 0; \
images 1 516; frames 1 0 511; end

run: drawn from 609
turns: 1021 0000232200202201312322331203303
stores: reads writes 1; reads writes 1; reads writes 1
trace: trace 1 512 4 3; 0 map 0 0 510 wired write; 0 load 0 0; 509 times 8192: 0 load 0 #; 0 map 0 512 2 fixed write; \
0 map 0 514 1 wired write; 0 map 1 0 8 fixed write; 0 map 2 0 1 wired write; 1 store 2 0 51; 0 store 0 4202496 51; 1 \
store 0 4210688 54; 0 store 0 4202496 19; 0 grow 1 0 1; 2 store 1 8192 42; 2 load 2 0; end
report: 1021 0 s0 answer 511 done; 1022 0 s0 answer 512 done; 1023 0 s1 answer 513 done; 1024 0 s2 answer 514 done; \
1025 2 s1+f take 1 510 0 8 8 0; 1026 2 s1 answer 0 done miss 0; 1027 2 s2+f take 0 511 0 1 1 1; 1028 0 s0+f claim 1 1 \
510 for 513 write; 1029 0 s1 failed 1 write 1; 1030 2 s2 answer 1 value 0 miss 0; 1031 0 s1+f unclaim 510; 1032 0 s0 \
answer 515 storefault 1 1; 1033 1 s2 answer 0 done miss 0; 1034 1 s0+f claim 1 1 510 for 514 write; 1035 1 s1 out 1 \
written; 1036 0 f refused 511 1 0; 1037 0 s0 answer 516 noframes 511 1 0; 1038 1 s1+f give 1 510; 1039 0 s1 answer 517 \
notgrowing; 1040 1 s0+f use 514 510 514 515 1 1; 1041 1 s0 answer 1 done miss 0; tiles 8 7 7 0; promotions 63; \
demotions 0; preemptions 0; images 0 514; frames 0 0 512; end

run: drawn from 626
turns: 1026 0022202001111221100202011211221121221211202
stores: full
trace: trace 1 512 3 1; 0 map 0 0 511 wired write; 0 map 0 511 1 fixed write; 0 load 0 0; 511 times 8192: 0 load 0 #; \
0 map 0 512 3 wired read; 0 map 0 515 8 fixed write; 0 load 0 4276224; 2 store 0 4194304 38; 0 map 0 525 2 fixed \
write; 2 store 0 4218880 22; 2 store 0 4194304 50; 2 unmap 0 512; 1 load 0 4194304; 2 sync 0 512; 0 sync 0 515; 1 load \
0 0; end
report: 1026 0 s0 answer 514 done; 1027 0 s0 answer 515 done; 1028 2 s0 answer 0 denied; 1029 2 s0+f claim 0 511 511 \
for 515 write; 1030 2 s0 out 511 clean; 1031 2 s0+f give 511 511; 1032 2 s0+f use 515 511 515 523 8 0; 1033 2 s0 \
answer 1 done miss 0; 1034 1 s0+f claim 0 515 511 for 512 read; 1035 1 s0+f unclaim 511; 1036 1 s0 answer 0 nomemory; \
1037 1 s0 answer 1 value 0 miss 2; 1038 2 s0 answer 2 denied; 1039 2 s0+f clear 512 3; 1040 2 s0 answer 3 done; 1041 2 \
s0 answer 4 unmapped; 1042 0 s0+f claim 0 515 511 for 522 read; 1043 0 s0+f unclaim 511; 1044 0 s0 answer 516 \
nomemory; 1045 0 s0 answer 517 done; 1046 0 s0 answer 518 nomemory; tiles 8 7 7 0; promotions 63; demotions 0; \
preemptions 0; images 0 514; frames 0 0 512; end

run: drawn from 734
turns: 1026 00022222312333002001122333132032
stores: reads 515 writes 4; reads 3 writes 4
trace: trace 1 512 4 2; 0 map 0 0 510 wired write; 0 map 0 510 2 growing write; 0 load 0 0; 511 times 8192: 0 load 0 \
#; 0 map 0 512 1 wired write; 0 map 1 0 1 wired read; 0 store 0 4186112 24; 2 store 0 4194304 1; 2 unmap 1 0; 1 \
protect 0 512 1 none; 3 load 1 0; 2 load 0 4194304; 2 load 0 4194304; 2 load 0 4194304; 2 load 1 0; 1 store 1 0 13; \
end
report: 1026 0 s0 answer 514 done; 1027 0 s1 answer 515 done; 1028 0 s0 answer 516 done hit 0; 1029 2 s0+f claim 0 510 \
510 for 512 write; 1030 2 s0 out 510 clean; 1031 2 s0+f give 510 510; 1032 2 s0+f use 512 510 512 513 1 1; 1033 2 s0 \
answer 0 done miss 0; 1034 3 s1+f claim 0 511 511 for 0 read; 1035 1 s0 answer 0 done; 1036 2 s1+f clear 0 1; 1037 3 \
s0 out 511 written; 1038 3 s0+f give 511 511; 1039 2 s1 answer 1 done; 1040 1 s1 answer 1 unmapped; 1041 2 s0 answer 2 \
denied; 1042 2 s0 answer 3 denied; 1043 3 f drop 511; 1044 3 s1 answer 0 unmapped; 1045 2 s0 answer 4 denied; 1046 2 \
s1 answer 5 unmapped; tiles 7 7 7 0; promotions 63; demotions 0; preemptions 0; images 1 513; frames 1 0 511; end

run: drawn from 749
turns: 1026 0000210002020221010121000110021022102210121
stores: reads writes; reads writes; reads writes
trace: trace 1 512 3 3; 0 map 0 0 510 wired write; 0 map 0 510 2 fixed write; 0 load 0 0; 511 times 8192: 0 load 0 #; \
0 map 0 512 1 wired read; 0 map 0 513 1 growing write; 0 map 1 0 2 fixed write; 0 map 2 0 1 fixed write; 2 store 0 \
4194304 55; 1 protect 0 0 1 none; 1 protect 2 0 1 read; 2 store 2 0 14; 1 protect 0 0 1 read; 2 store 0 4202496 92; 0 \
load 0 4194304; 1 protect 1 0 1 write; 0 load 0 0; end
report: 1026 0 s0 answer 514 done; 1027 0 s0 answer 515 done; 1028 0 s1 answer 516 done; 1029 0 s2 answer 517 done; \
1030 2 s0 answer 0 denied; 1031 1 s0 answer 0 done; 1032 0 s0+f claim 0 510 510 for 512 read; 1033 0 s0 out 510 clean; \
1034 0 s0+f give 510 510; 1035 2 s2+f claim 0 511 511 for 0 write; 1036 0 s0+f use 512 510 512 513 1 1; 1037 0 s0 \
answer 518 value 0 miss 0; 1038 2 s0 out 511 clean; 1039 2 s0+f give 511 511; 1040 1 s2 answer 1 done; 1041 0 s0 \
answer 519 denied; 1042 1 s0 answer 2 done; 1043 1 s1 answer 3 done; 1044 2 f drop 511; 1045 2 s2 answer 1 denied; \
1046 2 s0+f take 513 511 513 1048576 1 0; 1047 2 s0 answer 2 done miss 0; tiles 16 14 6 0; promotions 63; demotions 1; \
preemptions 0; images 0 514; frames 0 0 512; end

run: drawn from 776
turns: 1019 000000001012022021001010121222012122
stores: full
trace: trace 1 512 3 3; 0 map 0 0 509 wired write; 0 load 0 0; 508 times 8192: 0 load 0 #; 0 map 0 512 8 growing \
write; 0 map 1 0 8 fixed write; 0 map 2 0 1 growing write; 1 load 2 0; 1 unmap 0 512; 1 store 2 0 49; 1 evict 2 0; 2 \
load 0 4218880; 0 evict 0 512; 1 sync 1 0; 0 store 1 16384 31; 2 store 0 4194304 35; 1 map 2 3 2 fixed write; 2 map 0 \
515 2 fixed write; end
report: 1019 0 s0 answer 510 done; 1020 0 s1 answer 511 done; 1021 0 s2 answer 512 done; 1022 0 s0 answer 513 clean; \
1023 0 s1+f take 2 509 0 8 8 0; 1024 0 s1 answer 514 done miss 0; 1025 1 s2+f take 0 510 0 1048576 1 0; 1026 1 s2 \
answer 0 value 0 miss 0; 1027 2 s0+f take 515 511 512 1048576 8 0; 1028 2 s0 answer 0 value 0 miss 0; 1029 2 s0+f \
claim 1 2 509 for 512 write; 1030 2 s1+f unclaim 509; 1031 1 s0+f clear 512 8; 1032 1 s0 answer 1 done; 1033 1 s2 \
answer 2 done hit 0; 1034 1 s2 answer 3 nomemory; 1035 2 s0 answer 1 nomemory; 1036 1 s1 answer 4 clean; 1037 2 s0 \
answer 2 done; 1038 1 s2 answer 5 done; tiles 7 7 7 0; promotions 63; demotions 0; preemptions 0; images 1 512; frames \
1 0 511; end

run: drawn from 798
turns: 1026 0000201022110100012220210102120200112002111
stores: reads writes 2; reads writes 2
trace: trace 1 512 3 2; 0 map 0 0 510 wired write; 0 map 0 510 2 fixed write; 0 load 0 0; 511 times 8192: 0 load 0 #; \
0 map 0 512 8 fixed read; 0 map 1 0 3 fixed write; 0 map 1 7 3 fixed write; 1 load 1 57344; 0 store 1 0 18; 2 load 1 \
57344; 2 load 1 57344; 2 store 1 57344 85; 0 evict 1 0; 1 store 1 0 69; 0 load 0 4915200; 2 load 0 4915200; 1 store 1 \
57344 10; 0 load 0 4210688; 2 store 0 4194304 91; 2 sync 1 1; 2 store 1 57344 55; end
report: 1026 0 s0 answer 514 done; 1027 0 s1 answer 515 done; 1028 0 s1 answer 516 done; 1029 0 s1+f claim 0 510 510 \
for 0 write; 1030 2 s1+f claim 0 511 511 for 7 read; 1031 0 s0 out 510 clean; 1032 1 f refused 510 2 0; 1033 0 s0+f \
give 510 510; 1034 2 s0 out 511 clean; 1035 2 s0+f give 511 511; 1036 1 s1 answer 0 noframes 510 2 0; 1037 1 f refused \
510 0 2; 1038 1 s1 answer 1 noframes 510 0 2; 1039 0 s1+f use 0 510 0 3 3 0; 1040 0 s1 answer 517 done miss 0; 1041 0 \
s1+f answer 518 written; 1042 1 s1+f take 7 510 7 10 3 0; 1043 0 s0 answer 519 unmapped; 1044 1 s1 answer 2 done miss \
0; 1045 0 s0+f claim 1 7 510 for 514 read; 1046 0 s1 failed 7 write 1; 1047 0 s1+f unclaim 510; 1048 2 f drop 511; \
1049 0 s0 answer 520 storefault 1 1; 1050 2 s1 answer 0 value 10 miss 0; 1051 2 s1 answer 1 value 10 hit 0; 1052 2 s1 \
answer 2 done hit 0; 1053 2 s0 answer 3 unmapped; 1054 2 s0 answer 4 denied; 1055 2 s1 answer 5 clean; 1056 2 s1 \
answer 6 done hit 0; tiles 7 7 7 0; promotions 63; demotions 0; preemptions 0; images 3 515; frames 1 0 511; end

run: drawn from 879
turns: 1025 00010110101110110100001101111111001000010101
stores: full
trace: trace 1 512 2 3; 0 map 0 0 512 fixed write; 0 store 0 0 5; 511 times 8192: 0 load 0 #; 0 map 0 512 1 fixed \
write; 0 map 1 0 8 fixed read; 0 map 2 0 8 growing write; 1 load 1 0; 0 store 2 0 88; 1 store 0 4194304 50; 1 evict 1 \
0; 1 protect 2 0 1 read; 0 store 2 0 69; 0 sync 1 0; 0 unmap 0 512; 1 sync 0 600; 0 map 2 1048575 2 fixed write; 0 \
store 1 57344 48; 0 store 0 4194304 75; 1 load 0 4194304; end
report: 1025 0 s0 answer 513 done; 1026 0 s1 answer 514 done; 1027 0 s2 answer 515 done; 1028 1 s1+f claim 0 0 0 for 0 \
read; 1029 0 s2+f claim 0 1 1 for 0 write; 1030 1 s0+f unclaim 0; 1031 1 s1 answer 0 nomemory; 1032 0 s0 out 1 clean; \
1033 0 s0+f give 1 1; 1034 1 s0+f claim 0 0 0 for 512 write; 1035 1 s0+f unclaim 0; 1036 1 s0 answer 1 nomemory; 1037 \
0 s2+f use 0 1 0 1048576 8 0; 1038 1 s1 answer 2 clean; 1039 0 s2 answer 516 done miss 0; 1040 1 s2 answer 3 done; \
1041 0 s2 answer 517 denied; 1042 0 s1 answer 518 clean; 1043 0 s0+f clear 512 1; 1044 0 s0 answer 519 done; 1045 1 s0 \
answer 4 unmapped; 1046 1 s0 answer 5 unmapped; 1047 0 s2 answer 520 outofspace; 1048 0 s1 answer 521 denied; 1049 0 \
s0 answer 522 unmapped; tiles 8 7 7 0; promotions 63; demotions 0; preemptions 0; images 0 513; frames 0 0 512; end

run: drawn from 883
turns: 1026 0021030200011221213022120
stores: reads 514 515 writes 1
trace: trace 1 512 4 1; 0 map 0 0 511 wired write; 0 map 0 511 1 growing write; 0 load 0 0; 511 times 8192: 0 load 0 \
#; 0 map 0 512 3 wired write; 3 store 0 0 24; 1 sync 0 0; 3 store 0 4210688 91; 3 unmap 0 512; 2 store 0 0 59; 2 \
protect 0 514 1 write; 1 sync 0 514; 1 store 0 0 46; 3 evict 0 514; 0 store 0 0 11; 0 evict 0 514; 3 protect 0 512 1 \
read; 3 sync 0 0; end
report: 1026 0 s0 answer 514 done; 1027 0 s0 answer 515 done hit 0; 1028 2 s0 answer 0 done miss 0; 1029 1 s0 failed 0 \
write 1; 1030 1 s0 answer 0 storefault 0 1; 1031 1 s0 answer 1 clean; 1032 2 s0 answer 1 done; 1033 1 s0 answer 2 done \
miss 0; 1034 3 s0 answer 0 done miss 0; 1035 0 s0 answer 516 denied; 1036 3 s0+f claim 0 511 511 for 514 write; 1037 3 \
s0 out 511 clean; 1038 3 s0+f give 511 511; 1039 3 s0+f use 514 511 512 515 3 1; 1040 3 s0 answer 1 done miss 0; 1041 \
3 s0+f clear 512 3; 1042 3 s0 answer 2 done; 1043 3 s0 answer 3 unmapped; 1044 3 s0 answer 4 unmapped; 1045 3 s0 \
answer 5 written; tiles 7 7 7 0; promotions 64; demotions 1; preemptions 0; images 1 516; frames 1 0 511; end

run: drawn from 891
turns: 1025 000033003302111332311100023
stores: reads 513 515 writes 2 3; reads 1 3 writes 2 3
trace: trace 1 512 4 2; 0 map 0 0 512 fixed write; 0 load 0 0; 511 times 8192: 0 load 0 #; 0 map 0 512 8 fixed write; \
0 map 1 0 2 wired write; 0 map 1 9 2 fixed write; 2 unmap 0 0; 2 unmap 0 512; 3 store 1 0 65; 0 load 0 4194304; 0 \
store 1 0 98; 2 load 1 0; 1 protect 0 518 1 read; 2 unmap 0 512; 1 map 1 1048575 2 fixed write; end
report: 1025 0 s0 answer 513 done; 1026 0 s1 answer 514 done; 1027 0 s1 answer 515 done; 1028 0 s0+f claim 0 0 0 for \
512 read; 1029 3 s1+f claim 0 1 1 for 0 write; 1030 0 s0 out 0 clean; 1031 0 s0+f give 0 0; 1032 0 s0+f use 512 0 512 \
520 8 0; 1033 0 s0 failed 512 read 1; 1034 0 s0+f give 512 0; 1035 0 s0 answer 516 storefault 0 1; 1036 2 s0+f clear 0 \
512; 1037 0 s1+f take 0 0 0 2 2 1; 1038 0 s1 failed 0 read 1; 1039 0 s1+f give 0 0; 1040 0 s1 answer 517 storefault 1 \
1; 1041 2 s0 answer 0 done; 1042 1 s0 answer 0 done; 1043 1 s1 answer 1 outofspace; 1044 2 s0+f clear 512 8; 1045 2 s0 \
answer 1 done; 1046 2 s1+f take 0 0 0 2 2 1; 1047 2 s1 answer 2 value 0 miss 0; 1048 2 s0 answer 3 unmapped; 1049 3 f \
got 1; 1050 3 f drop 1; 1051 3 s1 answer 0 done miss 0; tiles 1 0 0 0; promotions 64; demotions 15; preemptions 0; \
images 0 514; frames 511 0 1; end

run: drawn from 926
turns: 1025 00102320200213302123323301122120220103
stores: reads writes; reads writes
trace: trace 1 512 4 2; 0 map 0 0 512 fixed write; 0 store 0 0 5; 511 times 8192: 0 load 0 #; 0 map 0 512 1 wired \
read; 0 map 1 0 1 fixed write; 0 store 1 0 19; 2 load 1 0; 0 store 0 4915200 79; 1 load 1 0; 3 load 0 4194304; 2 \
protect 0 512 1 read; 1 protect 1 0 1 read; 1 evict 0 512; 2 evict 0 512; 1 sync 1 0; end
report: 1025 0 s0 answer 513 done; 1026 0 s1 answer 514 done; 1027 1 s1+f claim 0 0 0 for 0 read; 1028 0 s1+f claim 0 \
1 1 for 0 write; 1029 2 s1+f claim 0 2 2 for 0 read; 1030 3 s0+f claim 0 3 3 for 512 read; 1031 3 s0 out 3 clean; 1032 \
3 s0+f give 3 3; 1033 3 s0+f use 512 3 512 513 1 1; 1034 3 s0 answer 0 value 0 miss 0; 1035 2 s0 out 2 clean; 1036 2 \
s0+f give 2 2; 1037 2 s1+f use 0 2 0 1 1 0; 1038 1 s0 out 0 written; 1039 2 s1 answer 0 value 0 miss 0; 1040 1 s0+f \
give 0 0; 1041 0 s0 out 1 clean; 1042 0 s0+f give 1 1; 1043 0 f drop 1; 1044 0 s1 answer 515 done miss 0; 1045 0 s0 \
answer 516 unmapped; 1046 1 f drop 0; 1047 1 s1 answer 0 value 19 miss 0; 1048 1 s1 answer 1 done; 1049 1 s0 answer 2 \
denied; 1050 1 s1 answer 3 written; 1051 2 s0 answer 1 done; 1052 2 s0 answer 2 denied; tiles 6 7 7 0; promotions 63; \
demotions 0; preemptions 0; images 0 516; frames 2 0 510; end

run: drawn from 939
turns: 1023 0100000110011110001010101110001
stores: reads 512 writes 2 3
trace: trace 1 512 2 1; 0 map 0 0 511 wired write; 0 load 0 0; 510 times 8192: 0 load 0 #; 0 map 0 512 3 fixed write; \
0 map 0 514 2 fixed write; 0 load 0 4210688; 1 map 0 603 2 fixed write; 0 store 0 4210688 55; 0 load 0 4210688; 1 \
store 0 4194304 92; 1 store 0 4915200 78; 1 store 0 4194304 18; 0 unmap 0 514; 1 load 0 4210688; end
report: 1023 0 s0 answer 512 done; 1024 1 s0 answer 0 done; 1025 0 s0 answer 513 overlap; 1026 0 s0+f take 514 511 512 \
515 3 0; 1027 0 s0 failed 514 read 1; 1028 0 s0+f give 514 511; 1029 0 s0 answer 514 storefault 0 1; 1030 1 s0+f take \
512 511 512 515 3 0; 1031 1 s0 answer 1 done miss 0; 1032 0 s0+f claim 0 512 511 for 514 write; 1033 0 s0 out 512 \
written; 1034 0 s0+f give 512 511; 1035 0 s0+f use 514 511 512 515 3 0; 1036 0 s0 answer 515 done miss 0; 1037 1 s0 \
answer 2 unmapped; 1038 0 s0 answer 516 value 55 hit 0; 1039 1 s0+f claim 0 514 511 for 512 write; 1040 1 s0 failed \
514 write 2; 1041 1 s0+f unclaim 511; 1042 1 s0 answer 3 storefault 0 2; 1043 1 s0 answer 4 value 55 miss 0; 1044 0 \
s0+f clear 512 3; 1045 0 s0 answer 517 done; tiles 7 7 7 0; promotions 63; demotions 0; preemptions 0; images 1 514; \
frames 1 0 511; end

run: drawn from 992
turns: 1023 0000110001110110011100100010111001010110
stores: reads 514 515 writes; reads 3 4 writes
trace: trace 1 512 2 2; 0 map 0 0 511 wired write; 0 load 0 0; 510 times 8192: 0 load 0 #; 0 map 0 512 3 fixed write; \
0 map 0 521 1 fixed write; 0 map 1 0 8 fixed read; 0 map 1 12 8 fixed write; 0 sync 0 521; 0 load 1 57344; 1 evict 1 \
0; 0 store 0 4268032 59; 1 load 1 98304; 0 protect 0 521 1 none; 1 sync 1 12; 1 load 1 0; 1 store 1 98304 58; 1 load 0 \
4268032; 0 sync 0 512; 1 store 1 0 37; 0 load 1 98304; 0 load 1 98304; end
report: 1023 0 s0 answer 512 done; 1024 0 s0 answer 513 done; 1025 0 s1 answer 514 done; 1026 0 s1 answer 515 done; \
1027 1 s1 answer 0 clean; 1028 1 s1+f take 12 511 12 20 8 0; 1029 0 s0 answer 516 clean; 1030 1 s1 answer 1 value 0 \
miss 0; 1031 1 s1 answer 2 clean; 1032 1 s1+f claim 1 12 511 for 0 read; 1033 1 s1 out 12 clean; 1034 1 s1+f give 12 \
511; 1035 1 s1+f use 0 511 0 8 8 0; 1036 1 s1 answer 3 value 0 miss 0; 1037 1 s1+f claim 1 0 511 for 12 write; 1038 1 \
s1 out 0 clean; 1039 1 s1+f give 0 511; 1040 1 s1+f use 12 511 12 20 8 0; 1041 1 s1 failed 12 read 1; 1042 1 s1+f give \
12 511; 1043 1 s1 answer 4 storefault 1 1; 1044 0 s1+f take 7 511 0 8 8 0; 1045 1 s0+f claim 1 7 511 for 521 read; \
1046 0 s1 failed 7 read 2; 1047 0 s1+f give 7 511; 1048 0 s1 answer 517 storefault 1 2; 1049 0 f refused 511 0 1; 1050 \
0 s0 answer 518 noframes 511 0 1; 1051 0 s0 answer 519 done; 1052 0 s0 answer 520 clean; 1053 0 f refused 511 0 1; \
1054 0 s1 answer 521 noframes 511 0 1; 1055 0 f refused 511 0 1; 1056 0 s1 answer 522 noframes 511 0 1; 1057 1 f got \
511; 1058 1 f drop 511; 1059 1 s0 answer 5 denied; 1060 1 s1 answer 6 denied; tiles 7 7 7 0; promotions 63; demotions \
0; preemptions 0; images 0 513; frames 1 0 511; end

run: drawn from 1107
turns: 1026 0013310203013301123213102222002
stores: full
trace: trace 1 512 4 1; 0 map 0 0 510 wired write; 0 map 0 510 2 growing write; 0 load 0 0; 511 times 8192: 0 load 0 \
#; 0 map 0 512 2 growing write; 0 map 0 519 3 wired read; 2 store 0 4194304 82; 3 store 0 4268032 82; 3 store 0 \
4251648 79; 3 map 0 1048575 2 fixed write; 0 protect 0 512 1 none; 0 store 0 4915200 58; 3 load 0 4268032; 3 protect 0 \
519 1 none; 0 load 0 4251648; 1 load 0 4268032; end
report: 1026 0 s0 answer 514 done; 1027 0 s0 answer 515 done; 1028 1 s0+f claim 0 510 510 for 521 read; 1029 1 s0 out \
510 clean; 1030 1 s0+f give 510 510; 1031 1 s0+f use 521 510 519 522 3 1; 1032 1 s0 answer 0 value 0 miss 0; 1033 2 \
s0+f claim 0 511 511 for 512 write; 1034 2 s0 out 511 clean; 1035 2 s0+f give 511 511; 1036 2 s0+f use 512 511 512 519 \
2 0; 1037 2 s0 answer 0 done miss 0; 1038 0 s0 answer 516 done; 1039 0 s0 answer 517 unmapped; 1040 0 s0+f claim 0 512 \
511 for 519 read; 1041 0 s0+f unclaim 511; 1042 0 s0 answer 518 nomemory; 1043 3 s0 answer 0 denied; 1044 3 s0 answer \
1 denied; 1045 3 s0 answer 2 outofspace; 1046 3 s0 answer 3 value 0 miss 0; 1047 3 s0 answer 4 done; tiles 8 7 7 0; \
promotions 63; demotions 0; preemptions 0; images 0 515; frames 0 0 512; end

run: drawn from 1174
turns: 1021 0000101111101000101001100001011011110111101010
stores: reads 512 writes 1 2; reads 2 writes 1 2
trace: trace 1 512 2 2; 0 map 0 0 510 wired write; 0 load 0 0; 509 times 8192: 0 load 0 #; 0 map 0 512 8 fixed write; \
0 map 1 0 3 fixed write; 1 store 0 0 55; 1 store 0 4194304 60; 0 store 0 4194304 25; 1 store 1 0 58; 0 grow 0 512 9; 0 \
load 1 0; 0 protect 0 512 1 read; 0 load 0 4235264; 0 store 0 4194304 96; 0 load 0 4194304; 1 evict 1 0; 1 protect 0 \
517 1 write; 0 store 0 0 9; end
report: 1021 0 s0 answer 511 done; 1022 0 s1 answer 512 done; 1023 0 s0+f take 512 510 512 520 8 0; 1024 0 s0 answer \
513 done miss 0; 1025 1 s0 answer 0 done miss 0; 1026 0 s0 answer 514 notgrowing; 1027 1 s0 answer 1 done miss 0; 1028 \
1 s1+f take 0 511 0 3 3 0; 1029 1 s1 answer 2 done miss 0; 1030 1 s1 failed 0 write 1; 1031 1 s1 answer 3 storefault 1 \
1; 1032 0 s1 answer 515 value 58 miss 0; 1033 1 s0 answer 4 done; 1034 0 s0 answer 516 done; 1035 0 s0+f claim 0 512 \
510 for 517 read; 1036 0 s0 failed 512 write 1; 1037 0 s0+f unclaim 510; 1038 0 s0 answer 517 storefault 0 1; 1039 0 \
s0 answer 518 denied; 1040 0 s0 answer 519 value 60 miss 0; 1041 0 s0 answer 520 done miss 0; tiles 16 14 6 0; \
promotions 63; demotions 1; preemptions 0; images 0 517; frames 0 0 512; end

run: drawn from 1177
turns: 1019 0012010012210020110221012211212000100010110
stores: reads 512 513 writes 4; reads 3 4 writes 4
trace: trace 1 512 3 2; 0 map 0 0 509 wired write; 0 load 0 0; 508 times 8192: 0 load 0 #; 0 map 0 512 8 growing \
write; 0 map 1 0 8 fixed write; 1 sync 0 600; 0 store 0 4218880 41; 0 store 0 4915200 39; 0 store 1 40960 47; 1 load 0 \
4194304; 0 load 1 0; 2 store 1 0 36; end
report: 1019 0 s0 answer 510 done; 1020 0 s1 answer 511 done; 1021 1 s0 answer 0 unmapped; 1022 2 s1+f take 0 509 0 8 \
8 0; 1023 0 s0+f take 515 510 512 1048576 8 0; 1024 0 s0 answer 512 done miss 0; 1025 0 s0 answer 513 unmapped; 1026 1 \
s0+f take 512 511 512 1048576 8 0; 1027 2 s1 answer 0 done miss 0; 1028 1 s0 answer 1 value 0 miss 0; 1029 0 s1+f \
claim 1 0 509 for 5 write; 1030 0 s1 out 0 written; 1031 0 s1+f give 0 509; 1032 0 s1+f use 5 509 0 8 8 0; 1033 0 s1 \
answer 514 done miss 0; 1034 0 s1+f claim 0 515 510 for 0 read; 1035 0 s0 out 515 written; 1036 0 s0+f give 515 510; \
1037 0 s1+f use 0 510 0 8 8 0; 1038 0 s1 failed 0 read 1; 1039 0 s1+f give 0 510; 1040 0 s1 answer 515 storefault 1 1; \
tiles 7 7 7 0; promotions 63; demotions 0; preemptions 0; images 0 513; frames 1 0 511; end

run: drawn from 1180
turns: 1021 0000010200022012221112010001
stores: reads writes 1; reads writes 1; reads writes 1
trace: trace 1 512 3 3; 0 map 0 0 510 wired write; 0 load 0 0; 509 times 8192: 0 load 0 #; 0 map 0 512 1 wired write; \
0 map 1 0 3 fixed write; 0 map 1 5 8 fixed write; 0 map 2 0 8 wired write; 0 store 1 57344 18; 0 store 1 0 98; 1 load \
1 57344; 0 grow 1 0 1; 2 evict 2 0; 1 load 1 0; 2 store 2 0 12; 1 load 1 0; 1 load 2 0; end
report: 1021 0 s0 answer 511 done; 1022 0 s1 answer 512 done; 1023 0 s1 answer 513 done; 1024 0 s2 answer 514 done; \
1025 0 s1+f take 7 510 5 13 8 0; 1026 0 s1 answer 515 done miss 0; 1027 2 s2 answer 0 denied; 1028 0 s1+f take 0 511 0 \
3 3 0; 1029 0 s1 answer 516 done miss 0; 1030 0 s1 answer 517 notgrowing; 1031 2 s2+f claim 1 7 510 for 0 write; 1032 \
2 s1 failed 7 write 1; 1033 2 s1+f unclaim 510; 1034 2 s2 answer 1 storefault 1 1; 1035 1 s1 answer 0 value 18 miss 0; \
1036 1 s1 answer 1 value 98 miss 0; 1037 1 s1 answer 2 value 98 hit 0; 1038 1 s2+f claim 1 7 510 for 0 read; 1039 1 s1 \
out 7 written; 1040 1 s1+f give 7 510; 1041 1 s2+f use 0 510 0 8 8 1; 1042 1 s2 answer 3 value 0 miss 0; tiles 8 7 7 \
0; promotions 63; demotions 0; preemptions 0; images 1 515; frames 0 0 512; end

run: drawn from 1240
turns: 1026 000100020102233022331201230300023013010322
stores: reads 514 516 writes 3; reads 2 4 writes 3
trace: trace 1 512 4 2; 0 map 0 0 510 wired write; 0 map 0 510 2 fixed write; 0 load 0 0; 511 times 8192: 0 load 0 #; \
0 map 0 512 8 fixed write; 0 map 1 0 3 growing write; 0 map 1 6 3 wired write; 3 map 1 1048575 2 fixed write; 3 grow 0 \
512 9; 1 load 1 0; 3 load 0 4186112; 3 store 1 57344 99; 3 unmap 0 519; 2 load 1 57344; 1 unmap 1 0; 3 store 1 49152 \
14; 0 unmap 0 511; 1 evict 1 0; end
report: 1026 0 s0 answer 514 done; 1027 0 s1 answer 515 done; 1028 0 s1 answer 516 done; 1029 1 s1+f claim 0 510 510 \
for 0 read; 1030 0 s0+f clear 510 2; 1031 0 s0 answer 517 done; 1032 2 s1+f take 7 511 6 9 3 1; 1033 1 f got 510; 1034 \
2 s1 answer 0 value 0 miss 0; 1035 3 s1 answer 0 outofspace; 1036 3 s0 answer 1 notgrowing; 1037 3 s0 answer 2 \
unmapped; 1038 3 s1 answer 3 done miss 0; 1039 1 s1+f use 0 510 0 6 3 0; 1040 1 s1 failed 0 read 1; 1041 3 s0+f clear \
512 8; 1042 3 s0 answer 4 done; 1043 1 s1+f give 0 510; 1044 1 s1 answer 0 storefault 1 1; 1045 3 s1+f take 6 510 6 9 \
3 1; 1046 3 s1 answer 5 done miss 0; 1047 1 s1+f clear 0 3; 1048 1 s1 answer 1 done; 1049 1 s1 answer 2 unmapped; \
tiles 8 7 7 0; promotions 63; demotions 0; preemptions 0; images 0 515; frames 0 0 512; end

run: drawn from 1388
turns: 1023 0002210312220201311112001002212003332313
stores: reads writes; reads writes; reads writes
trace: trace 1 512 4 3; 0 map 0 0 511 wired write; 0 load 0 0; 510 times 8192: 0 load 0 #; 0 map 0 512 2 fixed read; 0 \
map 1 0 8 fixed write; 0 map 2 0 2 growing write; 2 store 0 0 21; 2 store 2 0 65; 0 unmap 2 0; 2 map 0 1048575 2 fixed \
write; 3 load 2 0; 2 store 1 0 85; 1 store 1 8192 87; 3 protect 1 0 1 write; 2 map 0 0 2 fixed write; 2 grow 0 513 1; \
2 store 0 4194304 27; end
report: 1023 0 s0 answer 512 done; 1024 0 s1 answer 513 done; 1025 0 s2 answer 514 done; 1026 2 s0 answer 0 done miss \
0; 1027 2 s2+f take 0 511 0 1048576 2 0; 1028 1 s1+f claim 2 0 511 for 1 write; 1029 2 s2 answer 1 done miss 0; 1030 2 \
s0 answer 2 outofspace; 1031 2 f refused 511 1 0; 1032 0 s2+f clear 0 2; 1033 2 s1 answer 3 noframes 511 1 0; 1034 0 \
s2 answer 515 done; 1035 1 f got 511; 1036 3 s2 answer 0 unmapped; 1037 1 s1+f use 1 511 0 8 8 0; 1038 1 s1 answer 0 \
done miss 0; 1039 2 s0 answer 4 overlap; 1040 2 s0 answer 5 notgrowing; 1041 2 s0 answer 6 denied; 1042 3 s1 answer 1 \
done; tiles 16 14 6 0; promotions 63; demotions 1; preemptions 0; images 0 514; frames 0 0 512; end

run: drawn from 1392
turns: 1088 0011201001210110220002102211101121002200001
stores: reads writes 3 4; reads writes 3 4
trace: trace 1 512 3 2; 0 map 0 0 8 wired write; 62 times 8: 0 map 0 # 8 wired write; 0 map 0 504 8 fixed write; 0 \
load 0 0; 511 times 8192: 0 load 0 #; 0 map 0 512 1 fixed read; 0 map 1 0 8 wired write; 1 load 1 24576; 0 map 1 3 2 \
fixed write; 2 store 1 24576 73; 0 grow 1 3 1; 0 unmap 1 3; 0 load 0 4194304; 2 store 0 4194304 30; 2 store 1 0 2; 2 \
load 1 24576; 2 evict 0 512; end
report: 1088 0 s0 answer 576 regionsfull; 1089 0 s1 answer 577 done; 1090 1 s1+f claim 0 504 504 for 3 read; 1091 1 s0 \
out 504 clean; 1092 2 s1+f claim 0 505 505 for 3 write; 1093 0 s1 answer 578 overlap; 1094 1 s0+f give 504 504; 1095 0 \
s1 answer 579 notgrowing; 1096 0 s1+f clear 0 8; 1097 2 s0 out 505 clean; 1098 0 s1 answer 580 done; 1099 1 f drop \
504; 1100 1 s1 answer 0 unmapped; 1101 2 s0+f give 505 505; 1102 2 f drop 505; 1103 0 s0 answer 581 unmapped; 1104 2 \
s1 answer 0 unmapped; 1105 2 s0 answer 1 unmapped; 1106 2 s1 answer 2 unmapped; 1107 2 s1 answer 3 unmapped; 1108 2 s0 \
answer 4 unmapped; tiles 6 63 0 0; promotions 64; demotions 1; preemptions 0; images 0 512; frames 2 0 510; end

run: drawn from 1409
turns: 1026 0000001111101010001010101001101000100
stores: reads 513 writes 1 2; reads 1 writes 1 2; reads 1 writes 1 2
trace: trace 1 512 2 3; 0 map 0 0 509 wired write; 0 map 0 509 3 fixed write; 0 load 0 0; 511 times 8192: 0 load 0 #; \
0 map 0 512 8 wired read; 0 map 1 0 8 fixed write; 0 map 2 0 8 growing write; 1 load 0 4235264; 0 load 2 32768; 1 load \
2 0; 0 map 2 3 2 fixed write; 1 grow 0 0 1; 1 store 0 4235264 90; 0 load 0 0; end
report: 1026 0 s0 answer 514 done; 1027 0 s1 answer 515 done; 1028 0 s2 answer 516 done; 1029 0 s2+f claim 0 509 509 \
for 4 read; 1030 0 s0 out 509 clean; 1031 0 s0+f give 509 509; 1032 1 s0+f claim 0 510 510 for 517 read; 1033 1 s0 out \
510 clean; 1034 1 s0+f give 510 510; 1035 1 s0+f use 517 510 512 520 8 1; 1036 1 s0 failed 517 read 1; 1037 0 s2+f use \
4 509 0 1048576 8 0; 1038 1 s0+f give 517 510; 1039 0 s2 failed 4 read 1; 1040 1 s0 answer 0 storefault 0 1; 1041 0 \
s2+f give 4 509; 1042 0 s2 answer 517 storefault 2 1; 1043 0 s2 answer 518 overlap; 1044 1 s2+f take 0 509 0 1048576 8 \
0; 1045 0 s0 answer 519 value 0 hit 2; 1046 1 s2 answer 1 value 0 miss 0; 1047 1 s0 answer 2 notgrowing; 1048 1 s0 \
answer 3 denied; tiles 7 7 7 0; promotions 63; demotions 0; preemptions 0; images 1 513; frames 1 0 511; end

run: drawn from 1414
turns: 1026 000000001000010000001000110000
stores: reads 513 516 writes 4; reads 1 4 writes 4; reads 1 4 writes 4
trace: trace 1 512 2 3; 0 map 0 0 511 wired write; 0 map 0 511 1 fixed write; 0 load 0 0; 511 times 8192: 0 load 0 #; \
0 map 0 512 2 growing write; 0 map 0 521 1 fixed write; 0 map 1 0 1 fixed write; 0 map 2 0 1 growing write; 0 load 1 \
0; 0 load 1 0; 0 unmap 0 512; 1 load 0 4268032; 0 store 0 4268032 35; 1 store 2 0 41; 0 store 1 0 60; end
report: 1026 0 s0 answer 514 done; 1027 0 s0 answer 515 done; 1028 0 s1 answer 516 done; 1029 0 s2 answer 517 done; \
1030 0 s1+f claim 0 511 511 for 0 read; 1031 0 s0 out 511 clean; 1032 0 s0+f give 511 511; 1033 0 s1+f use 0 511 0 1 1 \
0; 1034 1 s0+f claim 1 0 511 for 521 read; 1035 0 s1 failed 0 read 1; 1036 0 s1+f give 0 511; 1037 0 s1 answer 518 \
storefault 1 1; 1038 0 f refused 511 0 1; 1039 0 s1 answer 519 noframes 511 0 1; 1040 0 s0+f clear 512 2; 1041 0 s0 \
answer 520 done; 1042 0 f refused 511 0 1; 1043 0 s0 answer 521 noframes 511 0 1; 1044 0 f refused 511 0 1; 1045 0 s1 \
answer 522 noframes 511 0 1; 1046 1 f got 511; 1047 1 s0+f use 521 511 521 522 1 0; 1048 1 s0 failed 521 read 1; 1049 \
1 s0+f give 521 511; 1050 1 s0 answer 0 storefault 0 1; 1051 1 s2+f take 0 511 0 1048576 1 0; 1052 1 s2 failed 0 read \
1; 1053 1 s2+f give 0 511; 1054 1 s2 answer 1 storefault 2 1; tiles 7 7 7 0; promotions 63; demotions 0; preemptions \
0; images 0 512; frames 1 0 511; end

run: drawn from 1415
turns: 1026 000011001303330300220220011201121300
stores: reads 513 516 writes 1 4; reads 1 4 writes 1 4; reads 1 4 writes 1 4
trace: trace 1 512 4 3; 0 map 0 0 509 wired write; 0 map 0 509 3 growing write; 0 load 0 0; 511 times 8192: 0 load 0 \
#; 0 map 0 512 2 fixed write; 0 map 1 0 3 fixed write; 0 map 1 4 2 wired write; 0 map 2 0 2 fixed write; 0 store 1 0 \
72; 3 protect 0 600 1 read; 3 load 0 4194304; 2 evict 1 1; 1 load 1 32768; 0 store 1 8192 94; 2 store 0 4194304 57; 2 \
store 1 0 80; 3 store 0 4194304 43; 2 load 1 32768; 3 load 2 0; 3 store 0 4915200 38; 1 load 1 0; end
report: 1026 0 s0 answer 514 done; 1027 0 s1 answer 515 done; 1028 0 s1 answer 516 done; 1029 0 s2 answer 517 done; \
1030 1 s1+f claim 0 509 509 for 4 read; 1031 1 s0 out 509 clean; 1032 0 s1+f claim 0 510 510 for 0 write; 1033 1 s0+f \
give 509 509; 1034 3 s0 answer 0 unmapped; 1035 0 s0 out 510 clean; 1036 0 s0+f give 510 510; 1037 3 s0+f claim 0 511 \
511 for 512 read; 1038 0 s1+f use 0 510 0 3 3 0; 1039 0 s1 failed 0 read 1; 1040 0 s1+f give 0 510; 1041 0 s1 answer \
518 storefault 1 1; 1042 0 s1+f take 1 510 0 3 3 0; 1043 0 s1 answer 519 done miss 0; 1044 1 s1+f use 4 509 4 6 2 1; \
1045 1 s1 answer 0 value 0 miss 0; 1046 2 s1 failed 1 write 2; 1047 3 s0 out 511 clean; 1048 2 s1 answer 0 storefault \
1 2; 1049 1 s1+f claim 1 1 510 for 0 read; 1050 1 s1 out 1 written; 1051 1 s1+f give 1 510; 1052 1 s1+f use 0 510 0 3 \
3 0; 1053 1 s1 failed 0 read 3; 1054 1 s1+f give 0 510; 1055 1 s1 answer 1 storefault 1 3; 1056 3 s0+f give 511 511; \
1057 3 s0+f use 512 510 512 514 2 0; 1058 3 s0 failed 512 read 1; 1059 3 s0+f give 512 510; 1060 3 s0 answer 1 \
storefault 0 1; 1061 2 s0+f take 512 510 512 514 2 0; 1062 2 s0 answer 1 done miss 0; 1063 2 s1+f take 0 511 0 3 3 0; \
1064 2 s1 answer 2 done miss 0; 1065 2 s1 answer 3 value 0 miss 0; 1066 3 s0 answer 2 done miss 0; 1067 3 s2+f claim 0 \
512 510 for 0 read; 1068 3 s0 failed 512 write 2; 1069 3 s0+f unclaim 510; 1070 3 s2 answer 3 storefault 0 2; 1071 3 \
s0 answer 4 unmapped; tiles 8 7 7 0; promotions 63; demotions 0; preemptions 0; images 0 518; frames 0 0 512; end

run: drawn from 1639
turns: 1019 0000010000101001110000000010010010100111111010
stores: full
trace: trace 1 512 2 3; 0 map 0 0 509 wired write; 0 load 0 0; 508 times 8192: 0 load 0 #; 0 map 0 512 3 fixed write; \
0 map 1 0 2 fixed write; 0 map 1 7 2 growing write; 0 map 2 0 2 fixed write; 0 store 1 8192 25; 0 store 0 4915200 22; \
0 protect 1 1 1 none; 0 load 0 4194304; 0 store 1 57344 7; 0 grow 1 7 1; 0 load 0 4194304; 0 store 0 4202496 55; 0 \
load 1 0; 1 sync 1 1; 0 load 0 4202496; 1 store 1 0 9; 1 store 1 57344 32; 0 store 0 4202496 57; end
report: 1019 0 s0 answer 510 done; 1020 0 s1 answer 511 done; 1021 0 s1 answer 512 done; 1022 0 s2 answer 513 done; \
1023 0 s1+f take 1 509 0 2 2 0; 1024 0 s1 answer 514 done miss 0; 1025 0 s0 answer 515 unmapped; 1026 0 s1 answer 516 \
done; 1027 0 s0+f take 512 510 512 515 3 0; 1028 1 s1 answer 0 nomemory; 1029 0 s0 answer 517 value 0 miss 0; 1030 1 \
s1+f take 0 511 0 2 2 0; 1031 1 s1 answer 1 done miss 0; 1032 1 s1+f claim 1 1 509 for 7 write; 1033 1 s1+f unclaim \
509; 1034 1 s1 answer 2 nomemory; 1035 0 s1+f claim 1 1 509 for 7 write; 1036 0 s1+f unclaim 509; 1037 0 s1 answer 518 \
nomemory; 1038 0 s1 answer 519 done; 1039 0 s0 answer 520 value 0 hit 0; 1040 0 s0+f claim 1 1 509 for 513 write; 1041 \
0 s1+f unclaim 509; 1042 0 s0 answer 521 nomemory; 1043 0 s1 answer 522 value 9 miss 0; 1044 0 s0+f claim 1 1 509 for \
513 read; 1045 0 s1+f unclaim 509; 1046 0 s0 answer 523 nomemory; 1047 0 s0+f claim 1 1 509 for 513 write; 1048 0 s1+f \
unclaim 509; 1049 0 s0 answer 524 nomemory; tiles 8 7 7 0; promotions 63; demotions 0; preemptions 0; images 1 513; \
frames 0 0 512; end

run: drawn from 1690
turns: 1088 00000011110001111010011010
stores: reads 513 516 writes 1; reads 1 4 writes 1; reads 1 4 writes 1
trace: trace 1 512 2 3; 0 map 0 0 8 wired write; 62 times 8: 0 map 0 # 8 wired write; 0 map 0 504 8 fixed write; 0 \
load 0 0; 511 times 8192: 0 load 0 #; 0 map 0 512 8 fixed write; 0 map 0 526 8 fixed write; 0 map 1 0 3 growing write; \
0 map 2 0 3 fixed read; 0 map 2 8 2 wired write; 1 evict 0 511; 1 store 2 65536 93; 1 store 0 4308992 15; 0 load 1 0; \
1 store 1 16384 10; 1 store 0 4308992 11; 1 protect 1 0 1 none; 0 grow 2 8 1; 1 load 2 0; 1 evict 0 511; end
report: 1088 0 s0 answer 576 regionsfull; 1089 0 s0 answer 577 regionsfull; 1090 0 s1 answer 578 done; 1091 0 s2 \
answer 579 done; 1092 0 s2 answer 580 done; 1093 0 s1+f claim 0 504 504 for 0 read; 1094 1 s0+f answer 0 clean; 1095 1 \
s2+f take 8 511 8 10 2 1; 1096 1 s2 failed 8 read 1; 1097 1 s2+f give 8 511; 1098 0 s0 out 504 clean; 1099 0 s0+f give \
504 504; 1100 0 s1+f use 0 504 0 1048576 3 0; 1101 1 s2 answer 1 storefault 2 1; 1102 1 s0 answer 2 unmapped; 1103 0 \
s1 failed 0 read 1; 1104 0 s1+f give 0 504; 1105 0 s1 answer 581 storefault 1 1; 1106 1 s1+f take 2 504 0 1048576 3 0; \
1107 1 s1 answer 3 done miss 0; 1108 0 s2 answer 582 notgrowing; 1109 1 s0 answer 4 unmapped; 1110 1 s1 answer 5 done; \
1111 1 s2+f take 0 511 0 3 3 0; 1112 1 s2 answer 6 value 0 miss 0; 1113 1 s0 answer 7 clean; tiles 8 63 0 0; \
promotions 64; demotions 1; preemptions 1; images 0 514; frames 0 0 512; end

run: drawn from 1694
turns: 1025 000210101303101333133311323113303310331012
stores: reads writes 1 4
trace: trace 1 512 4 1; 0 map 0 0 512 fixed write; 0 store 0 0 5; 511 times 8192: 0 load 0 #; 0 map 0 512 1 fixed \
write; 1 evict 0 512; 3 store 0 4915200 82; 1 sync 0 512; 2 load 0 4915200; 1 load 0 4194304; 2 load 0 4194304; 2 \
unmap 0 512; 2 load 0 4194304; 0 evict 0 512; 2 load 0 4194304; 2 grow 0 600 1; 1 load 0 4915200; 1 load 0 4194304; \
end
report: 1025 0 s0 answer 513 done; 1026 0 s0 answer 514 clean; 1027 2 s0 answer 0 unmapped; 1028 1 s0 answer 0 clean; \
1029 1 s0 answer 1 clean; 1030 1 s0+f claim 0 0 0 for 512 read; 1031 1 s0 failed 0 write 1; 1032 1 s0+f unclaim 0; \
1033 1 s0 answer 2 storefault 0 1; 1034 3 s0 answer 0 unmapped; 1035 1 s0 answer 3 unmapped; 1036 1 s0+f claim 0 0 0 \
for 512 read; 1037 1 s0 out 0 written; 1038 1 s0+f give 0 0; 1039 1 s0+f use 512 0 512 513 1 0; 1040 1 s0 answer 4 \
value 0 miss 0; 1041 2 s0 answer 1 value 0 miss 0; 1042 2 s0+f clear 512 1; 1043 2 s0 answer 2 done; 1044 2 s0 answer \
3 unmapped; 1045 2 s0 answer 4 unmapped; 1046 2 s0 answer 5 unmapped; tiles 7 7 7 0; promotions 64; demotions 1; \
preemptions 0; images 0 514; frames 1 0 511; end

run: drawn from 1767
turns: 1088 000002123233032022122122303103233312
stores: reads 514 writes; reads 2 writes; reads 2 writes
trace: trace 1 512 4 3; 0 map 0 0 8 wired write; 62 times 8: 0 map 0 # 8 wired write; 0 map 0 504 8 fixed write; 0 \
load 0 0; 511 times 8192: 0 load 0 #; 0 map 0 512 3 fixed write; 0 map 1 0 3 fixed write; 0 map 1 7 8 fixed write; 0 \
map 2 0 1 fixed write; 2 unmap 1 0; 2 load 1 0; 2 store 1 106496 46; 1 load 1 0; 2 store 0 0 78; 0 load 1 16384; 0 \
store 1 106496 89; 2 store 0 4202496 38; 0 protect 1 2 1 write; 0 sync 0 0; 1 load 0 4202496; end
report: 1088 0 s0 answer 576 regionsfull; 1089 0 s1 answer 577 done; 1090 0 s1 answer 578 done; 1091 0 s2 answer 579 \
done; 1092 0 s1+f claim 0 504 504 for 2 read; 1093 2 s1+f clear 0 3; 1094 2 s1 answer 0 done; 1095 2 s1 answer 1 \
unmapped; 1096 0 s0 out 504 clean; 1097 2 s1+f claim 0 505 505 for 13 write; 1098 0 s0+f give 504 504; 1099 2 s0 out \
505 clean; 1100 2 s0+f give 505 505; 1101 1 s1 answer 0 unmapped; 1102 2 s1+f use 13 505 7 15 8 0; 1103 2 s1 answer 2 \
done miss 0; 1104 1 s0 answer 1 unmapped; 1105 2 s0 answer 3 done miss 0; 1106 2 s0 answer 4 unmapped; 1107 0 f drop \
504; 1108 0 s1 answer 580 unmapped; 1109 0 s1 answer 581 done miss 0; 1110 0 s1 answer 582 unmapped; 1111 0 s0 answer \
583 written; tiles 7 63 0 0; promotions 65; demotions 2; preemptions 0; images 0 515; frames 1 0 511; end

run: drawn from 1799
turns: 1026 000110000000001111100010110010
stores: reads writes 1 2
trace: trace 1 512 2 1; 0 map 0 0 511 wired write; 0 map 0 511 1 growing write; 0 load 0 0; 511 times 8192: 0 load 0 \
#; 0 map 0 512 3 fixed write; 0 load 0 0; 1 load 0 4194304; 0 store 0 0 65; 1 load 0 4194304; 1 evict 0 513; 1 store 0 \
4194304 55; 0 map 0 3 2 fixed write; 1 store 0 4194304 4; 0 store 0 4202496 78; end
report: 1026 0 s0 answer 514 done; 1027 0 s0 answer 515 value 0 hit 2; 1028 0 s0 answer 516 done hit 0; 1029 1 s0+f \
claim 0 511 511 for 512 read; 1030 1 s0 out 511 clean; 1031 1 s0+f give 511 511; 1032 1 s0+f use 512 511 512 515 3 0; \
1033 1 s0 answer 0 value 0 miss 0; 1034 1 s0 answer 1 value 0 hit 0; 1035 1 s0 answer 2 clean; 1036 0 s0 answer 517 \
overlap; 1037 0 s0+f claim 0 512 511 for 513 write; 1038 0 s0 out 512 clean; 1039 0 s0+f give 512 511; 1040 0 s0+f use \
513 511 512 515 3 0; 1041 0 s0 answer 518 done miss 0; 1042 1 s0+f claim 0 513 511 for 512 write; 1043 1 s0 failed 513 \
write 1; 1044 1 s0+f unclaim 511; 1045 1 s0 answer 3 storefault 0 1; 1046 1 s0+f claim 0 513 511 for 512 write; 1047 1 \
s0 failed 513 write 2; 1048 1 s0+f unclaim 511; 1049 1 s0 answer 4 storefault 0 2; tiles 16 14 6 0; promotions 63; \
demotions 1; preemptions 0; images 3 514; frames 0 0 512; end

run: drawn from 1860
turns: 1026 0000133121321110012122312303122121222
stores: full
trace: trace 1 512 4 2; 0 map 0 0 509 wired write; 0 map 0 509 3 growing write; 0 load 0 0; 511 times 8192: 0 load 0 \
#; 0 map 0 512 8 fixed read; 0 map 1 0 2 fixed write; 0 map 1 8 1 fixed write; 0 load 1 65536; 0 load 1 65536; 2 load \
1 65536; 2 evict 1 8; 0 store 0 4194304 65; 3 store 1 65536 32; 3 map 1 1 2 fixed write; 2 store 1 65536 77; 1 store 0 \
4202496 52; 2 store 1 65536 49; 3 load 0 4202496; end
report: 1026 0 s0 answer 514 done; 1027 0 s1 answer 515 done; 1028 0 s1 answer 516 done; 1029 0 s1+f claim 0 509 509 \
for 8 read; 1030 1 s0 answer 0 denied; 1031 3 s1+f claim 0 510 510 for 8 write; 1032 3 s0 out 510 clean; 1033 2 s1+f \
claim 0 511 511 for 8 read; 1034 3 s0+f give 510 510; 1035 2 s0 out 511 clean; 1036 2 s0+f give 511 511; 1037 2 s1+f \
use 8 511 8 9 1 0; 1038 2 s1 answer 0 value 0 miss 0; 1039 3 f drop 510; 1040 3 s1 answer 0 done miss 0; 1041 0 s0 out \
509 clean; 1042 3 s1 answer 1 overlap; 1043 2 s1 answer 1 nomemory; 1044 2 s1 answer 2 done miss 0; 1045 2 s1 answer 3 \
done hit 0; 1046 0 s0+f give 509 509; 1047 0 f drop 509; 1048 0 s1 answer 517 value 49 miss 0; 1049 0 s1 answer 518 \
value 49 hit 0; 1050 0 s0 answer 519 denied; 1051 3 s0+f take 513 509 512 520 8 0; 1052 3 s0 answer 2 value 0 miss 0; \
tiles 7 7 7 0; promotions 63; demotions 0; preemptions 0; images 2 517; frames 1 0 511; end

run: drawn from 1928
turns: 1021 00111011100010001001111101000111
stores: reads writes 1
trace: trace 1 512 2 1; 0 map 0 0 510 wired write; 0 load 0 0; 509 times 8192: 0 load 0 #; 0 map 0 512 3 fixed write; \
1 unmap 0 512; 1 store 0 4169728 88; 1 map 0 512 2 fixed write; 1 protect 0 513 1 write; 1 sync 0 513; 1 protect 0 512 \
1 none; 0 store 0 4202496 82; 0 load 0 4194304; 0 map 0 516 2 fixed write; 1 protect 0 513 1 read; 0 store 0 4194304 \
95; 0 store 0 4194304 18; 1 evict 0 512; 0 load 0 4202496; end
report: 1021 0 s0 answer 511 done; 1022 0 s0+f take 513 510 512 515 3 0; 1023 0 s0 answer 512 done miss 0; 1024 1 s0+f \
clear 512 3; 1025 1 s0 answer 0 done; 1026 1 s0 answer 1 done miss 0; 1027 0 s0 answer 513 unmapped; 1028 0 s0 answer \
514 done; 1029 0 s0 answer 515 unmapped; 1030 1 s0 answer 2 done; 1031 0 s0+f take 512 510 512 514 2 0; 1032 0 s0 \
answer 516 done miss 0; 1033 0 s0+f take 513 511 512 514 2 0; 1034 0 s0 answer 517 value 0 miss 0; 1035 1 s0 answer 3 \
done; 1036 1 s0 answer 4 clean; 1037 1 s0 answer 5 done; 1038 1 s0 answer 6 done; 1039 1 s0 failed 512 write 1; 1040 1 \
s0 answer 7 storefault 0 1; tiles 8 7 7 0; promotions 63; demotions 0; preemptions 0; images 0 514; frames 0 0 512; \
end

run: drawn from 1932
turns: 1026 01100011211100221012010022220111000
stores: reads 515 writes 2
trace: trace 1 512 3 1; 0 map 0 0 509 wired write; 0 map 0 509 3 growing write; 0 load 0 0; 511 times 8192: 0 load 0 \
#; 0 map 0 512 3 fixed write; 0 store 0 4186112 31; 0 evict 0 514; 0 load 0 4210688; 2 map 0 511 2 fixed write; 0 sync \
0 511; 0 evict 0 511; 1 store 0 4210688 72; 1 load 0 4194304; 1 protect 0 511 1 write; end
report: 1026 0 s0 answer 514 done; 1027 1 s0+f claim 0 509 509 for 514 write; 1028 1 s0 out 509 clean; 1029 1 s0+f \
give 509 509; 1030 1 s0+f use 514 509 512 515 3 0; 1031 1 s0 answer 0 done miss 0; 1032 1 s0+f claim 0 510 510 for 512 \
read; 1033 1 s0 out 510 clean; 1034 1 s0+f give 510 510; 1035 1 s0+f use 512 510 512 515 3 0; 1036 1 s0 answer 1 value \
0 miss 0; 1037 0 s0 answer 515 done hit 0; 1038 0 s0+f answer 516 written; 1039 2 s0 answer 0 overlap; 1040 0 s0+f \
take 514 509 512 515 3 0; 1041 0 s0 failed 514 read 1; 1042 0 s0+f give 514 509; 1043 0 s0 answer 517 storefault 0 1; \
1044 0 s0 failed 511 write 2; 1045 0 s0 answer 518 storefault 0 2; 1046 0 s0+f answer 519 written; 1047 1 s0 answer 2 \
done; tiles 6 7 7 0; promotions 63; demotions 0; preemptions 0; images 1 514; frames 2 0 510; end

run: drawn from 1999
turns: 1025 00010000001011001001101010111010010100111011
stores: full
trace: trace 1 512 2 2; 0 map 0 0 512 fixed write; 0 load 0 0; 511 times 8192: 0 load 0 #; 0 map 0 512 2 wired write; \
0 map 1 0 1 wired write; 1 load 0 0; 0 evict 0 0; 0 load 1 0; 0 load 0 4194304; 0 sync 0 512; 1 load 1 0; 0 unmap 0 0; \
1 load 1 0; 1 load 0 4194304; end
report: 1025 0 s0 answer 513 done; 1026 0 s1 answer 514 done; 1027 0 s0+f answer 515 clean; 1028 1 s0+f take 0 0 0 512 \
512 0; 1029 0 s1+f claim 0 1 1 for 0 read; 1030 1 s0 answer 0 value 0 miss 3; 1031 0 s0 out 1 clean; 1032 1 s1+f claim \
0 2 2 for 0 read; 1033 0 s0+f give 1 1; 1034 0 s1+f use 0 1 0 1 1 1; 1035 1 s0 out 2 clean; 1036 0 s1 answer 516 value \
0 miss 0; 1037 1 s0+f give 2 2; 1038 1 f drop 2; 1039 0 s0+f take 512 2 512 514 2 1; 1040 1 s1 answer 1 value 0 miss \
0; 1041 0 s0 answer 517 value 0 miss 0; 1042 1 s1 answer 2 value 0 hit 0; 1043 0 s0 answer 518 clean; 1044 1 s0 answer \
3 value 0 miss 0; 1045 0 s0+f clear 0 512; 1046 0 s0 answer 519 done; tiles 2 0 0 0; promotions 65; demotions 16; \
preemptions 0; images 1 517; frames 510 0 2; end

run: drawn with wires from 207
turns: 1026 000022313202322223211122231
stores: reads writes; reads writes; reads writes
trace: trace 3 512 4 3 0123; 0 map 0 0 509 wired write; 0 map 0 509 3 fixed write; 0 load 0 0; 511 times 8192: 0 load \
0 #; 0 map 0 512 3 fixed read; 0 map 1 0 3 fixed write; 0 map 2 0 8 fixed read; 0 map 2 11 2 fixed write; 1 unmap 0 \
512; 2 sync 0 600; 2 store 1 0 52; 3 wire 2 11; 1 wire 0 511; 3 sync 2 11; 2 store 0 4194304 74; 0 discard 1 0 1; 1 \
load 2 90112; end
report: 1026 0 s0 answer 514 done; 1027 0 s1 answer 515 done; 1028 0 s2 answer 516 done; 1029 0 s2 answer 517 done; \
1030 2 s0 answer 0 unmapped; 1031 2 s1+f claim 0 509 509 for 0 write; 1032 3 s2+f pin 11 2 1; 1033 1 s0+f clear 512 3; \
1034 3 s2 answer 0 done; 1035 0 s1+f clear 0 1; 1036 3 s2 answer 1 clean; 1037 1 s0 answer 0 done; 1038 1 s0+f kept \
509 3 509 509; 1039 1 s0 answer 1 busy 509; 1040 2 s0 out 509 clean; 1041 2 s0+f give 509 509; 1042 1 s2+f claim 0 510 \
510 for 11 read; 1043 0 s1 answer 518 done; 1044 1 s0 out 510 clean; 1045 1 s0+f give 510 510; 1046 1 s2+f use 11 510 \
11 13 2 1; 1047 1 s2 answer 2 value 0 miss 0; 1048 2 s1+f use 0 509 0 3 3 0; 1049 2 s1 answer 1 done miss 0; 1050 2 s0 \
answer 2 unmapped; tiles 8 7 7 0; promotions 63; demotions 0; preemptions 0; images 0 514; frames 0 0 512; end

run: drawn with wires from 351
turns: 1026 00003211230132121011100133230
stores: reads 513 writes; reads 1 writes; reads 1 writes
trace: trace 3 512 4 3 0123; 0 map 0 0 510 wired write; 0 map 0 510 2 growing write; 0 load 0 0; 511 times 8192: 0 \
load 0 #; 0 map 0 512 3 wired read; 0 map 1 0 8 fixed write; 0 map 2 0 8 fixed write; 3 store 0 4186112 39; 1 wire 0 \
513; 2 unwire 1 4; 1 store 0 4186112 6; 1 wire 0 511; 3 sync 1 4; 3 load 1 0; 1 evict 2 0; end
report: 1026 0 s0 answer 514 done; 1027 0 s1 answer 515 done; 1028 0 s2 answer 516 done; 1029 3 s0 answer 0 done miss \
0; 1030 2 s1+f pin 0 8 0; 1031 1 s0+f pin 512 3 1; 1032 1 s0 answer 0 done; 1033 2 s1 answer 0 done; 1034 3 s1 answer \
1 clean; 1035 1 s0 answer 1 done miss 0; 1036 3 s1+f claim 0 510 510 for 0 read; 1037 1 s0+f kept 510 2 510 510; 1038 \
1 s0 answer 2 busy 510; 1039 1 s2 answer 3 clean; 1040 3 s0 out 510 clean; 1041 3 s0+f give 510 510; 1042 3 s1+f use 0 \
510 0 8 8 0; 1043 3 s1 failed 0 read 1; 1044 3 s1+f give 0 510; 1045 3 s1 answer 2 storefault 1 1; tiles 7 7 7 0; \
promotions 63; demotions 0; preemptions 0; images 0 514; frames 1 0 511; end

run: drawn with wires from 556
turns: 1025 000330033333022133112013221232111323
stores: reads writes; reads writes
trace: trace 3 512 4 2 0123; 0 map 0 0 512 fixed write; 0 load 0 0; 511 times 8192: 0 load 0 #; 0 map 0 512 1 fixed \
read; 0 map 1 0 1 wired write; 0 map 1 1 1 fixed write; 2 store 1 8192 27; 0 sync 0 512; 0 load 1 8192; 3 store 1 0 \
53; 0 load 1 8192; 3 wire 1 1; 3 store 0 4186112 67; 0 protect 1 1 1 read; 1 wire 0 511; end
report: 1025 0 s0 answer 513 done; 1026 0 s1 answer 514 done; 1027 0 s1 answer 515 done; 1028 3 s1+f claim 0 0 0 for 0 \
write; 1029 3 s0 out 0 clean; 1030 3 s0+f give 0 0; 1031 3 s1+f use 0 0 0 1 1 1; 1032 3 s1 answer 0 done miss 0; 1033 \
3 s1+f pin 1 1 1; 1034 3 s1 answer 1 done; 1035 0 s0 answer 516 clean; 1036 2 s1+f claim 0 1 1 for 1 write; 1037 2 s0 \
out 1 clean; 1038 2 s0+f give 1 1; 1039 0 s1+f claim 0 2 2 for 1 read; 1040 1 s0+f kept 0 512 2 2; 1041 2 s1+f use 1 1 \
1 2 1 1; 1042 2 s1 answer 0 done miss 0; 1043 1 s0 answer 0 busy 2; 1044 3 s0 answer 2 done miss 0; 1045 0 s0 out 2 \
clean; 1046 0 s0+f give 2 2; 1047 0 f drop 2; 1048 0 s1 answer 517 value 27 miss 0; 1049 0 s1 answer 518 value 27 hit \
0; 1050 0 s1 answer 519 done; tiles 15 14 6 0; promotions 64; demotions 2; preemptions 0; images 1 516; frames 1 0 \
511; end";
